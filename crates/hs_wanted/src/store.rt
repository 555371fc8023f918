//! The words of a store: how many shards, and of how many copies.
ghost use Rattle.std.specs.Prelude.{◌≡◌, ◌==◌, ◌≤◌, ◌∷◌, [], IfSome};
ghost use Rattle.std.specs.List.{list_any};
ghost use Rattle.hs_limits.specs.Shape.{IsShape};
ghost use Rattle.hs_script.specs.CommandLine.{copies_word, shape_word, shards_word};
ghost use Rattle.hs_wanted.specs.Asked.{IsShards};

use hs_limits::Shape;
use hs_script::number_up_to;

/// The shape that two words ask for.
pub(crate) fn shape_word(shards: &[u8], copies: &[u8]) -> Option<Shape>
    ensures exact { result ≡ shape_word shards.now copies.now }
    ensures shape { IfSome result IsShape }
{
    let shards = shards_word(shards)?;
    let copies = copies_word(copies)?;
    Some(Shape { shards, copies })
}

/// How many shards a word asks for.
fn shards_word(word: &[u8]) -> Option<u8>
    ensures exact { result ≡ shards_word word.now }
    ensures shards { IfSome result IsShards }
{
    let number = number_up_to(8, word)?;
    if is_shards(number) {
        Some(number as u8)
    } else {
        None
    }
}

/// Whether a store may have so many shards.
fn is_shards(number: u64) -> bool
    ensures { result ≡ list_any (λ k. number == k) (1 ∷ 2 ∷ 4 ∷ 8 ∷ []) }
{
    number == 1 || number == 2 || number == 4 || number == 8
}

/// How many copies of a shard a word asks for.
fn copies_word(word: &[u8]) -> Option<u8>
    ensures exact { result ≡ copies_word word.now }
    ensures some { IfSome result (λ copies. 1 ≤ copies) }
    ensures few { IfSome result (λ copies. copies ≤ 4) }
{
    let number = number_up_to(4, word)?;
    if number == 0 {
        None
    } else {
        Some(number as u8)
    }
}
