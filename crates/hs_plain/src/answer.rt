//! What a judgement hands back.
use hs_model::{Asked, Deed, Reply};

/// What was answered and done.
#[derive(Debug, Drop)]
pub struct Answer {
    pub reply: Reply,
    pub deed: Deed,
}

impl Answer {
    ghost use Rattle.std.specs.Prelude.{◌≡◌};
    ghost use Rattle.hs_model.specs.declared.deed.Deed.TheVariants.{Refused};

    /// The answer to an operation that was refused.
    pub(crate) fn refused(refusal: Reply, asked: Asked) -> Answer
        ensures reply { result.reply ≡ refusal }
        ensures deed { result.deed ≡ Refused asked }
    {
        Answer {
            reply: refusal,
            deed: Deed::Refused { asked },
        }
    }
}
