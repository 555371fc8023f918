//! What follows of a copy.
ghost use Rattle.std.specs.Prelude.{◌<◌, ℕ, List, length};
ghost use Rattle.hs_copy.specs.Copied.{IsCopied};
ghost use Rattle.hs_copy.specs.Copying.{AreThere};
ghost use Rattle.hs_copy.specs.Listing.{AreAllOf, KeepsMore};
ghost use Rattle.hs_limits.specs.Block.{Block};
ghost use Rattle.hs_limits.specs.declared.address.Address.{Address};
ghost use Rattle.hs_model.specs.Store.{Store};

/// Where some blocks are all that a key reaches in one store, each once and at its name, and another store
/// has them under the key as a copy leaves them, the key is copied.
pub fn a_copy_is_copied()
    ensures { (name : List ℕ → Address) (first second : Store) (key : List ℕ)
        (blocks : List Block) → AreAllOf name first key blocks →
        AreThere name second key blocks → IsCopied first second key }
{}

/// Where some blocks are all that a key reaches, each once, they are as many as the addresses that it
/// reaches: it reaches no more. So nothing that reaches more than 4,000 is copied.
pub fn a_root_is_counted()
    ensures { (name : List ℕ → Address) (s : Store) (key : List ℕ) (blocks : List Block) (n : ℕ) →
        AreAllOf name s key blocks → KeepsMore s key n → n < length blocks }
{}
