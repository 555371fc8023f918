//! What was sent stays so.
ghost use Rattle.std.specs.Prelude.{◌≡◌, ◌<◌, ◌++◌, ℕ, List, [], ◌∷◌, Option, Some, true};
ghost use Rattle.hs_standing.specs.Changes.{IsBeside, told_at_once};
ghost use Rattle.hs_core_words.specs.Asking.{send_round};
ghost use Rattle.hs_core_words.specs.Changing.{change_pool, note, refuse};
ghost use Rattle.hs_core_words.specs.Delivering.{is_new_round};
ghost use Rattle.hs_core_words.specs.Looking.{group_of, shape_of};
ghost use Rattle.hs_core_words.specs.Opening.{Taken, new_core};
ghost use Rattle.hs_core_words.specs.Operating.{begin_line, go_on_with, propose_entry, resume};
ghost use Rattle.hs_core_words.specs.State.{Core};
ghost use Rattle.hs_core_words.specs.Views.{begin_view};
ghost use Rattle.hs_effects.specs.Lawful.{IsLawful};
ghost use Rattle.hs_effects.specs.Logged.{IsCalled, IsOrderly};
ghost use Rattle.hs_effects.specs.Taking.{next_deed, setting_of};
ghost use Rattle.hs_entry.specs.declared.entry.Entry.TheVariants as kind;
ghost use Rattle.hs_entry.specs.declared.entry.Entry.{Entry};
ghost use Rattle.hs_fold.specs.Lawful.{Deed};
ghost use Rattle.hs_fold.specs.Runs.Facts.{Catalogue as Folded};
ghost use Rattle.hs_journal.specs.declared.entry.Who.TheVariants as who;
ghost use Rattle.hs_limits.specs.declared.address.Address.{Address};
ghost use Rattle.hs_limits.specs.declared.delta.Delta.{Delta};
ghost use Rattle.hs_limits.specs.declared.limits.Limits.{Limits};
ghost use Rattle.hs_limits.specs.declared.shape.Shape.{Shape};
ghost use Rattle.hs_model.specs.declared.deed.Deed.TheVariants as deed;
ghost use Rattle.hs_model.specs.declared.op.Op.{Op};
ghost use Rattle.hs_model.specs.declared.reply.Reply.TheVariants as reply;
ghost use Rattle.hs_model.specs.declared.reply.Reply.{Reply};
ghost use Rattle.hs_ops.specs.Operations.{bytes_step};
ghost use Rattle.hs_post.specs.Pool.{message_at, without};
ghost use Rattle.hs_post.specs.declared.message.Message.TheVariants as message;
ghost use Rattle.hs_replica.specs.Group.{committed};
ghost use Rattle.hs_standing.specs.Sent.{AreSent};

/// As a core opens, each Round that is under way and each Got that waits was sent, each of these
/// Gots would be accepted, and no two of a shard are of one sender's round; so it stays behind each
/// change of which events are made. Those beside a run, what is noted of a peer or a line, a
/// client's line, an operation that goes on or is told bytes, an Enter that is due and a first view
/// bring no Round and no Got. A shard that sends a round again sends what its catalogue keeps as
/// sent (`again`), and a Round that is new is proposed as a Got (`round`), where the catalogues are
/// folds of a lawful history. Where an entry takes effect (`effect`), the history has it too: what
/// it sends is kept as sent, and the Gots that wait behind it would be accepted still, whatever
/// round it ends or enters.
pub fn what_was_sent_is_kept()
    ensures opened { (name : List ℕ → Address) (history : List Deed) (shape : Shape)
        (limits : Limits) (found : Taken) (moment : ℕ) →
        AreSent (setting_of name (new_core shape limits found moment)) history
        (new_core shape limits found moment) }
    ensures view { (name : List ℕ → Address) (history : List Deed) (core : Core) (shard : ℕ)
        → AreSent (setting_of name core) history core →
        AreSent (setting_of name (begin_view shard core)) history (begin_view shard core) }
    ensures beside { (name : List ℕ → Address) (history : List Deed) (a b : Core)
        → AreSent (setting_of name a) history a → IsBeside a b →
        AreSent (setting_of name b) history b }
    ensures downed { (name : List ℕ → Address) (history : List Deed) (core : Core) (peer line : ℕ)
        → AreSent (setting_of name core) history core →
        let behind : Core = note who.Store deed.Nothing (reply.Down peer line) core in
        AreSent (setting_of name behind) history behind }
    ensures refused { (name : List ℕ → Address) (history : List Deed) (core : Core) (line : ℕ)
        (refusal : Reply)
        → AreSent (setting_of name core) history core →
        AreSent (setting_of name (refuse line refusal core)) history (refuse line refusal core) }
    ensures line { (name : List ℕ → Address) (history : List Deed) (core : Core) (line : ℕ) (o : Op)
        → AreSent (setting_of name core) history core → IsCalled name core.sessions o →
        AreSent (setting_of name (begin_line line o core)) history (begin_line line o core) }
    ensures goes { (name : List ℕ → Address) (history : List Deed) (core : Core) (line : ℕ)
        → IsOrderly name core → AreSent (setting_of name core) history core →
        AreSent (setting_of name (resume line core)) history (resume line core) }
    ensures told { (name : List ℕ → Address) (history : List Deed) (core : Core) (line : ℕ)
        (bytes : Option (List ℕ)) (pointers : List Address)
        → IsOrderly name core → AreSent (setting_of name core) history core →
        let behind : Core = go_on_with (λ v o. bytes_step v bytes pointers o) line core in
        AreSent (setting_of name behind) history behind }
    ensures due { (name : List ℕ → Address) (history : List Deed) (core : Core) (shard epoch : ℕ)
        → AreSent (setting_of name core) history core →
        let behind : Core = propose_entry shard (kind.Enter 0 epoch) core in
        AreSent (setting_of name behind) history behind }

    ensures round { (name : List ℕ → Address) (cs : List Folded) (core : Core)
        (lawful : IsLawful name core cs) (number from to epoch round total : ℕ)
        (deltas : List Delta)
        → AreSent (setting_of name core) lawful.lawful.history core
        → message_at number core.pool ≡ Some (message.Round from to epoch round total deltas)
        → is_new_round to from epoch round (change_pool (without number) core) ≡ true →
        let behind : Core = propose_entry to (kind.Got from epoch round total deltas)
        (change_pool (without number) core) in
        AreSent (setting_of name behind) lawful.lawful.history behind }
    ensures again { (name : List ℕ → Address) (cs : List Folded) (core : Core)
        (lawful : IsLawful name core cs) (back shard : ℕ)
        → AreSent (setting_of name core) lawful.lawful.history core →
        AreSent (setting_of name (send_round back shard core)) lawful.lawful.history
        (send_round back shard core) }
    ensures effect { (name : List ℕ → Address) (cs : List Folded) (core : Core)
        (lawful : IsLawful name core cs) (shard number : ℕ) (entry : Entry)
        → IsOrderly name core → AreSent (setting_of name core) lawful.lawful.history core
        → shard < (shape_of core).shards → committed (group_of shard core) ≡ Some (number, entry) →
        AreSent (setting_of name (told_at_once shard entry core))
        (lawful.lawful.history ++ next_deed shard entry core ∷ [])
        (told_at_once shard entry core) }
{}
