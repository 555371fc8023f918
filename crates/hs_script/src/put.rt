//! Parts of lines.
ghost use Rattle.std.specs.Prelude.{◌≡◌, ◌∷◌, ◌++◌, codes, OnOk};
ghost use Rattle.std.specs.Fmt.{decimal};
ghost use Rattle.std.specs.List.{flat_map};
ghost use Rattle.hex.specs.Hex.{encode_lower};
ghost use Rattle.hs_script.specs.Text.{list_text, who_text};

use crate::written::put_asker;
use hs_block::print_address;
use hs_journal::Who;
use hs_limits::Address;
use std::io;
use std::io::Write;

/// Puts the number of the line at the end of `out`, or a dash.
pub(crate) fn put_who(who: Who, out: &mut Vec<u8>) -> io::Result<()>
    ensures { OnOk result (out.new.items ≡ out.old.items ++ who_text who) }
{
    out.reserve(40)?;
    put_asker(who, out);
    Ok(())
}

/// Puts a text and a name or key at the end of `out`.
pub(crate) fn put_named(text: &str, name: &[u8], out: &mut Vec<u8>) -> io::Result<()>
    ensures { OnOk result (out.new.items ≡ out.old.items ++ (text.now ++ name.now)) }
{
    write!(out, "{text}")?;
    out.extend_from_slice(name)?;
    Ok(())
}

/// Puts `name` and an address at the end of `out`.
pub(crate) fn put_address(address: &Address, out: &mut Vec<u8>) -> io::Result<()>
    ensures { OnOk result (out.new.items ≡
        out.old.items ++ (codes "name " ++ encode_lower address.now.0)) }
{
    write!(out, "name ")?;
    match print_address(address, out) {
        Ok(()) => Ok(()),
        Err(_) => Err(io::Error::from(io::ErrorKind::OutOfMemory)),
    }
}

/// Puts `stat` at the end of `out`, with its counts and what its shards say.
pub(crate) fn put_stat(
    counts: (u64, u64, u32),
    epochs: &[u64],
    swept: &[u64],
    out: &mut Vec<u8>,
) -> io::Result<()>
    ensures { OnOk result (out.new.items ≡ out.old.items ++ (codes "stat blocks " ++
        (decimal counts.0 ++ (codes " roots " ++ (decimal counts.1 ++ (codes " sessions " ++
        (decimal counts.2 ++ (codes " epochs " ++ (list_text epochs.now ++ (codes " swept " ++
        list_text swept.now)))))))))) }
{
    let (blocks, roots, sessions) = counts;
    write!(
        out,
        "stat blocks {blocks} roots {roots} sessions {sessions} epochs "
    )?;
    put_epochs(epochs, swept, out)
}

/// Puts the epochs of shards at the end of `out`, and those that they have swept.
fn put_epochs(epochs: &[u64], swept: &[u64], out: &mut Vec<u8>) -> io::Result<()>
    ensures { OnOk result (out.new.items ≡ out.old.items ++
        (list_text epochs.now ++ (codes " swept " ++ list_text swept.now))) }
{
    put_list(epochs, out)?;
    write!(out, " swept ")?;
    put_list(swept, out)
}

/// Puts numbers at the end of `out`, parted by commas.
#[tactic(auto, using(crate::proofs::TextLemmas::list_text_at))]
fn put_list(numbers: &[u64], out: &mut Vec<u8>) -> io::Result<()>
    ensures { OnOk result (out.new.items ≡ out.old.items ++ list_text numbers.now) }
{
    match numbers {
        [] => Ok(()),
        [first, rest @ ..] => {
            write!(out, "{first}")?;
            put_rest(rest, out)
        }
    }
}

/// Puts numbers at the end of `out`, each behind a comma.
fn put_rest(numbers: &[u64], out: &mut Vec<u8>) -> io::Result<()>
    ensures { OnOk result (out.new.items ≡
        out.old.items ++ flat_map (λ n. 44 ∷ decimal n) numbers.now) }
{
    for number in numbers {
        write!(out, ",{number}")?;
    }
    Ok(())
}
