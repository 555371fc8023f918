//! Laws of the format.
ghost use Rattle.std.specs.Prelude.{◌≡◌, ◌↔◌, ◌<◌, ℕ, List, Ok, Some};
ghost use Rattle.std.specs.List.{All};
ghost use Rattle.hs_side.specs.Reading.{Log, log_of};
ghost use Rattle.hs_side.specs.Spelling.{IsSpelled};

/// Bytes are read as a log exactly where they spell it.
pub fn a_log_is_read_exactly_where_it_is_spelled()
    ensures { (bytes : List ℕ) (log : Log) → All (λ byte. byte < 256) bytes →
        (log_of bytes ≡ Ok (Some log)) ↔ IsSpelled bytes log }
{}
