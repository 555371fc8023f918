//! What a run hands back, as text.
use hs_compare::Text;
use hs_model::CourseItem;
use hs_top::Status;
use std::alloc::Global;

/// A status with its fields, as a line.
pub fn status_text(alloc: Global, status: &Status) -> Text {
    let mut text = Text::new(alloc);
    put_status(status, &mut text);
    text
}

/// Puts a status with its fields, as a line.
fn put_status(status: &Status, out: &mut Text) {
    let (form, number) = match status {
        Status::Done => ("done\n", 0),
        Status::Usage => ("usage\n", 0),
        Status::BadLine { line } => ("badline #\n", *line),
        Status::ShardLost { shard } => ("shardlost #\n", u64::from(*shard)),
        Status::ReadFault => ("readfault\n", 0),
        Status::WriteFault => ("writefault\n", 0),
        Status::NoMemory => ("nomemory\n", 0),
        Status::WrongShape { peer, found } => {
            out.put_form("wrongshape #", &[u64::from(*peer)]);
            let shape = [u64::from(found.shards), u64::from(found.copies)];
            out.put_form(" found # #", &shape);
            (" #\n", u64::from(found.peer))
        }
        Status::Mismatch { session, place, .. } => {
            out.put_named("mismatch ", session.as_slice());
            (" #\n", *place)
        }
        Status::OpsFull => ("opsfull\n", 0),
        Status::Torn { peer, place, .. } => {
            out.put_form("torn #", &[u64::from(*peer)]);
            (" #\n", *place)
        }
        Status::NotEmpty { blocks, roots } => {
            out.put_form("notempty #", &[*blocks]);
            (" #\n", *roots)
        }
        Status::InputFull => ("inputfull\n", 0),
        Status::Refused { .. } => ("refused\n", 0),
        Status::NotATree { address } => {
            out.put_hex("notatree ", &address.0);
            ("\n", 0)
        }
        Status::NoSource { peer } => ("nosource #\n", u64::from(*peer)),
        Status::CopyFull { blocks } => ("copyfull #\n", *blocks),
    };
    out.put_form(form, &[number]);
}

/// The items of a course, one a line.
pub fn course_text(alloc: Global, course: &[CourseItem]) -> Text {
    let mut text = Text::new(alloc);
    for item in course {
        put_item(*item, &mut text);
    }
    text
}

/// Puts an item of a course, as a line.
fn put_item(item: CourseItem, out: &mut Text) {
    match item {
        CourseItem::Begun { line, moment } => out.put_form("begun # #\n", &[line, moment]),
        CourseItem::Good { peer, moment } => {
            out.put_form("good # #\n", &[u64::from(peer), moment]);
        }
        CourseItem::Bad { peer, moment } => out.put_form("bad # #\n", &[u64::from(peer), moment]),
        CourseItem::Took {
            shard,
            number,
            moment,
        } => out.put_form("took # # #\n", &[u64::from(shard), number, moment]),
    }
}
