//! The journal of a core that runs is one of deeds.
ghost use Rattle.std.specs.Prelude.{◌≡◌, ℕ, List, [], map, Option, None};
ghost use Rattle.hs_answered.specs.Standing.{store_with};
ghost use Rattle.hs_any_events.specs.Events.{ComesNext};
ghost use Rattle.hs_book.specs.Book.{Book};
ghost use Rattle.hs_book.specs.History.{History};
ghost use Rattle.hs_deeds.specs.History.{AreClients, HasTold};
ghost use Rattle.hs_deeds.specs.Lines.{AskedLine, GoesToEnd, LeavesDeeds, events_of};
ghost use Rattle.hs_events.specs.Course.{steps};
ghost use Rattle.hs_events.specs.Due.{Events};
ghost use Rattle.hs_events.specs.Found.{Found, first_core};
ghost use Rattle.hs_fold.specs.Shards.Setting.{Setting};
ghost use Rattle.hs_journal.specs.Deeds.{as_deed};
ghost use Rattle.hs_journal.specs.Events.{client_op};
ghost use Rattle.hs_known_copies.specs.Known.{AllComeWithRoom};
ghost use Rattle.hs_limits.specs.declared.address.Address.{Address};
ghost use Rattle.hs_model.specs.declared.command.Command.{Command};
ghost use Rattle.hs_model.specs.Deeds.{AreDeeds};
ghost use Rattle.hs_model.specs.Hollow.{hollow};
ghost use Rattle.hs_standing.specs.Opening.{OpensSoundly, opened_folds};
ghost use Rattle.hs_told.specs.InTurn.{AllMayCome};

use hs_answered::{
    a_read_is_the_judges, a_step_that_answers_is_the_judges, a_write_is_the_judges,
    an_answer_is_the_judges, views_show_the_store,
};
use hs_effects::{
    a_delete_is_answered_at_its_effect, a_drop_is_answered_at_its_effect,
    a_got_is_silent_or_a_sweep, a_new_block_is_answered_at_its_effect,
    a_present_block_is_answered_at_its_effect, a_root_is_answered_at_its_effect,
    an_enter_by_itself_is_told,
};
use hs_known_copies::a_store_that_opens_comes_on;
use hs_memory::catalogues_in_memory_are_folds;

/// What a core has told from its opening on, with what found the journal full, is deeds from the store at
/// which it was opened, without its data, and leaves that of the core: whatever events come, whatever reports
/// tell, whatever addresses writes bring, and with any number of copies (`run`). It opens over sound lists; each
/// line that has a command is a client's, and comes above those before, at a moment that is not before the last
/// one; a write brings an address where it has a block; and as long as the core goes on it has room for root
/// records. So the journal of a book that was opened with such a core is one of deeds (`book`). Where the core turned
/// before, and goes on behind the book by lines that delete or settle, its journal is one of deeds still, which leave
/// its store; and that has as many blocks and retained roots as the catalogues count (`lines`).
pub fn a_history_is_its_deeds()
    ensures run { (set : Setting) (found : Found) (commands : ℕ → Option Command)
        (events : Events) → OpensSoundly set found
        → client_op (commands 0) ≡ None → AreClients commands
        → AllComeWithRoom ComesNext (first_core set found) events
        → AllMayCome commands (first_core set found) events →
        HasTold set.limits (hollow (store_with (opened_folds set found) []))
        (steps (first_core set found) events) }
    ensures book { (set : Setting) (found : Found) (book : Book)
        → OpensSoundly set found → History (first_core set found) book →
        AreDeeds set.limits (hollow (store_with (opened_folds set found) [])) []
        (map as_deed book.core.journal) }
    ensures lines { (set : Setting) (found : Found) (name : List ℕ → Address) (turns : Events)
        (book : Book) (lines : List AskedLine)
        → OpensSoundly set found → GoesToEnd name set found turns book lines
        → (steps book.core (events_of lines)).ended ≡ None →
        LeavesDeeds set.limits (hollow (store_with (opened_folds set found) []))
        (steps book.core (events_of lines)) }
{
    a_step_that_answers_is_the_judges();
    an_answer_is_the_judges();
    a_read_is_the_judges();
    a_write_is_the_judges();
    views_show_the_store();
    a_new_block_is_answered_at_its_effect();
    a_present_block_is_answered_at_its_effect();
    a_root_is_answered_at_its_effect();
    a_drop_is_answered_at_its_effect();
    a_delete_is_answered_at_its_effect();
    an_enter_by_itself_is_told();
    a_got_is_silent_or_a_sweep();
    catalogues_in_memory_are_folds();
    a_store_that_opens_comes_on();
}
