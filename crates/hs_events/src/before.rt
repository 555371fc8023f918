//! What the course tells of an event: whose being good changed, and which fronts rose.
ghost use Rattle.std.specs.Prelude.{◌≡◌, ◌∷◌, ◌++◌, ◌*◌, ◌+◌, ◌≤◌, [], flat_map, false, map, slice_index_or, vec_capacity, vec_len, IfOk};
ghost use Rattle.std.specs.Option.{option_map_or};
ghost use Rattle.std.specs.List.{range_with_len};
ghost use Rattle.hs_events.specs.Course.{change_item, items_between, took_items};
ghost use Rattle.hs_core_words.specs.Calls.{begun_line};
ghost use Rattle.hs_core_words.specs.Looking.{front_of, known_of, status_of};
ghost use Rattle.hs_core_words.specs.State.{Core};
ghost use Rattle.hs_members.specs.Members.{is_good_status};
ghost use Rattle.hs_model.specs.declared.course.CourseItem.TheVariants as item;

use hs_core::Core;
use hs_core_words::Event;
use hs_limits::PeerStatus;
use hs_model::CourseItem;
use std::alloc::{AllocError, Global};

/// Which of so many peers are good.
#[tactic(auto, using(crate::proofs::RangeLemmas::map_range_more))]
pub fn goods_of(alloc: Global, core: &Core, peers: u8) -> Result<Vec<bool>, AllocError>
    requires { peers ≤ core.now.members.shape.shards * core.now.members.shape.copies }
    ensures { IfOk result (λ goods. goods.items
        ≡ map (λ peer. is_good_status (status_of peer core.now)) (range_with_len 0 peers)) }
{
    let mut goods = Vec::new(alloc);
    for peer in 0..peers {
        goods.push(core.status(peer) == PeerStatus::Good)?;
    }
    Ok(goods)
}

/// How many entries of so many peers their leads know to be sealed.
#[tactic(auto, using(crate::proofs::RangeLemmas::map_range_more))]
pub fn knowns_of(alloc: Global, core: &Core, peers: u8) -> Result<Vec<u64>, AllocError>
    requires { peers ≤ core.now.members.shape.shards * core.now.members.shape.copies }
    ensures { IfOk result (λ knowns. knowns.items
        ≡ map (λ peer. known_of peer core.now) (range_with_len 0 peers)) }
{
    let mut knowns = Vec::new(alloc);
    for peer in 0..peers {
        knowns.push(core.known(peer))?;
    }
    Ok(knowns)
}

/// The fronts of so many shards.
#[tactic(auto, using(crate::proofs::RangeLemmas::map_range_more))]
pub fn fronts_of(alloc: Global, core: &Core, shards: u8) -> Result<Vec<u64>, AllocError>
    requires { shards ≤ core.now.members.shape.shards }
    ensures { IfOk result (λ fronts. fronts.items
        ≡ map (λ shard. front_of shard core.now) (range_with_len 0 shards)) }
{
    let mut fronts = Vec::new(alloc);
    for shard in 0..shards {
        fronts.push(core.front(shard))?;
    }
    Ok(fronts)
}

/// Notes the items of an event, where this is the core after it. There is room for them.
#[tactic(auto, using(crate::proofs::NotedLemmas::noted))]
pub fn note_event(
    core: &Core,
    line: Option<u64>,
    goods: &Vec<bool>,
    fronts: &Vec<u64>,
    course: &mut Vec<CourseItem>,
    moment: u64,
)
    requires room { vec_len course.old + (1 + core.now.members.shape.shards
        * core.now.members.shape.copies + core.now.members.shape.shards)
        ≤ vec_capacity course.old }
    ensures items { (before : Core) → before.members.shape ≡ core.now.members.shape
        → goods.now.items ≡ map (λ peer. is_good_status (status_of peer before))
        (range_with_len 0 (core.now.members.shape.shards * core.now.members.shape.copies))
        → fronts.now.items ≡ map (λ shard. front_of shard before)
        (range_with_len 0 core.now.members.shape.shards)
        → course.new.items ≡ course.old.items ++ items_between line before core.now moment }
{
    let shape = core.shape();
    let peers = shape.shards * shape.copies;
    note_begun(line, course, moment);
    note_goods(core, peers, goods.as_slice(), course, moment);
    note_fronts(core, shape.shards, fronts.as_slice(), course, moment);
}

/// Notes that a client's line was begun, where one was. There is room for it.
fn note_begun(line: Option<u64>, course: &mut Vec<CourseItem>, moment: u64)
    requires room { vec_len course.old + 1 ≤ vec_capacity course.old }
    ensures items { course.new.items ≡ course.old.items
        ++ option_map_or (λ line. item.Begun line moment ∷ []) line [] }
    ensures room { vec_len course.new ≤ vec_len course.old + 1 }
    ensures capacity { vec_capacity course.new ≡ vec_capacity course.old }
{
    if let Some(line) = line {
        course.push_reserved(CourseItem::Begun { line, moment });
    }
}

/// Notes each of so many peers that was good and is not, or is and was not. There is room for them.
#[tactic(auto, using(crate::proofs::RangeLemmas::flat_map_range_more))]
fn note_goods(core: &Core, peers: u8, were: &[bool], course: &mut Vec<CourseItem>, moment: u64)
    requires peers { peers ≤ core.now.members.shape.shards * core.now.members.shape.copies }
    requires room { vec_len course.old + peers ≤ vec_capacity course.old }
    ensures items { course.new.items ≡ course.old.items
        ++ flat_map (λ peer. change_item (slice_index_or were.now peer false)
        (is_good_status (status_of peer core.now)) peer moment) (range_with_len 0 peers) }
    ensures room { vec_len course.new ≤ vec_len course.old + peers }
    ensures capacity { vec_capacity course.new ≡ vec_capacity course.old }
{
    for peer in 0..peers {
        note_good(core, peer, was_good(were, peer), course, moment);
    }
}

/// Whether a peer was good.
fn was_good(were: &[bool], peer: u8) -> bool
    ensures { result ≡ slice_index_or were.now peer false }
{
    match were.get(usize::from(peer)) {
        Some(was) => *was,
        None => false,
    }
}

/// Notes a peer where it was good and is not, or is and was not.
fn note_good(core: &Core, peer: u8, was: bool, course: &mut Vec<CourseItem>, moment: u64)
    requires peer { peer + 1 ≤ core.now.members.shape.shards * core.now.members.shape.copies }
    requires room { vec_len course.old + 1 ≤ vec_capacity course.old }
    ensures items { course.new.items ≡ course.old.items
        ++ change_item was (is_good_status (status_of peer core.now)) peer moment }
    ensures room { vec_len course.new ≤ vec_len course.old + 1 }
    ensures capacity { vec_capacity course.new ≡ vec_capacity course.old }
{
    let is = core.status(peer) == PeerStatus::Good;
    if was && !is {
        course.push_reserved(CourseItem::Bad { peer, moment });
    }
    if !was && is {
        course.push_reserved(CourseItem::Good { peer, moment });
    }
}

/// Notes each of so many shards whose front rose. There is room for them.
#[tactic(auto, using(crate::proofs::RangeLemmas::flat_map_range_more))]
fn note_fronts(core: &Core, shards: u8, before: &[u64], course: &mut Vec<CourseItem>, moment: u64)
    requires shards { shards ≤ core.now.members.shape.shards }
    requires room { vec_len course.old + shards ≤ vec_capacity course.old }
    ensures items { course.new.items ≡ course.old.items
        ++ flat_map (λ shard. took_items shard (slice_index_or before.now shard 0)
        (front_of shard core.now) moment) (range_with_len 0 shards) }
{
    for shard in 0..shards {
        note_front(core, shard, front_before(before, shard), course, moment);
    }
}

/// The front of a shard before.
fn front_before(before: &[u64], shard: u8) -> u64
    ensures { result ≡ slice_index_or before.now shard 0 }
{
    match before.get(usize::from(shard)) {
        Some(front) => *front,
        None => 0,
    }
}

/// Notes a shard whose front rose.
fn note_front(core: &Core, shard: u8, before: u64, course: &mut Vec<CourseItem>, moment: u64)
    requires shard { shard + 1 ≤ core.now.members.shape.shards }
    requires room { vec_len course.old + 1 ≤ vec_capacity course.old }
    ensures items { course.new.items ≡ course.old.items
        ++ took_items shard before (front_of shard core.now) moment }
    ensures room { vec_len course.new ≤ vec_len course.old + 1 }
    ensures capacity { vec_capacity course.new ≡ vec_capacity course.old }
{
    let front = core.front(shard);
    if before < front {
        course.push_reserved(CourseItem::Took {
            shard,
            number: front,
            moment,
        });
    }
}

/// The line that an event begins for a client.
pub fn begun_line(event: &Event) -> Option<u64>
    ensures { result ≡ begun_line event.now }
{
    match event {
        Event::Line { line, .. } => Some(*line),
        Event::Report { .. }
        | Event::Turn { .. }
        | Event::Deliver { .. }
        | Event::Lose { .. }
        | Event::Repeat { .. }
        | Event::Nudge { .. }
        | Event::Fail { .. }
        | Event::Start { .. } => None,
    }
}
