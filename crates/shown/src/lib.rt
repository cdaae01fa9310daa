// The text of a plan: the bench program's first line, and what depends on what. Each function writes on a page. An inner crate: the programs call it, and leave room for what is written; `writing` has a plan's records counted here.
#![tactic(auto)]

ghost use Rattle.std.specs.Prelude.{◌+◌, ◌*◌, ◌<◌, ◌≤◌, ◌≡◌, length};
ghost use Rattle.ids.specs.Limits.{nodes};
ghost use Rattle.model.specs.PlanValue.{somewhere};
ghost use Rattle.text.specs.Put.{Put, Puts};
ghost use Rattle.text.specs.Room.{number_room, plan_room, HasRoom};
ghost use Rattle.shown.specs.Heading.{site_count, node_count, first_text};
ghost use Rattle.shown.specs.Lines.{item as item-text, items, node_text, node_texts, shown_text, is_listed, told_on};
ghost use Rattle.shown.specs.Room.{item_most, line_most, shown_room};

use ids::{Node, Site};
use model::{Plan, PlanRead};
use printable::Table;
use text::Page;

// The room that `first_line` asks for, `plan_room`: the longest first line.
pub const LINE: usize = 89;

// The room that `show` asks for, `shown_room`: the longest first line, for each node its number, a colon, 64 numbers with a space each and the line's end, and
// behind them room for a number of any size, which `Page::number` asks for whatever it writes.
pub const ROOM: usize = LINE + Node::COUNT * (3 * Node::COUNT + 4) + 6;

// How many sites a plan has: those with threads.
pub fn site_count(plan: Plan) -> usize
    ensures { result ≡ site_count plan }
{
    plan.threads.iter().filter(|threads| **threads != 0).count()
}

// How many nodes a plan has: those that are somewhere.
pub fn node_count(plan: Plan) -> usize
    ensures { result ≡ node_count plan }
{
    plan.places
        .iter()
        .filter(|place| **place != Plan::NOWHERE)
        .count()
}

// The first line.
pub fn first_line<'a>(page: &mut Page<'a>, read: PlanRead)
    requires { HasRoom page.old plan_room }
    ensures same_reference { page.new.text.ghost_name ≡ page.old.text.ghost_name }
    ensures put { Puts page.old (first_text read) page.new }
{
    let plan = read.plan;
    match read.answer {
        Ok(used) => page.plan_line(site_count(plan), node_count(plan), plan.edges, used),
        Err(fault) => page.plan_refused_line(plan::refusal_number(fault.why), fault.offset),
    }
}

// A node's number behind a space, where it is to be named.
fn item<'a>(page: &mut Page<'a>, m: usize, named: bool)
    requires room { HasRoom page.old number_room }
    requires node { m < nodes }
    ensures same_reference { page.new.text.ghost_name ≡ page.old.text.ghost_name }
    ensures put { Puts page.old (item-text named m) page.new }
{
    if named {
        page.number(m as u16);
    }
}

// The nodes that n depends on.
fn row<'a>(page: &mut Page<'a>, table: &Table, n: usize)
    requires room { HasRoom page.old (nodes * item_most + number_room) }
    requires node { n < nodes }
    ensures same_reference { page.new.text.ghost_name ≡ page.old.text.ghost_name }
    ensures put { Puts page.old (items (told_on table.now.cells n) nodes) page.new }
{
    for m in 0..Node::COUNT {
        item(page, m, table.cells[Node::COUNT * n + m] == 1);
    }
}

// The line of a node, where it is listed.
fn node_line<'a>(page: &mut Page<'a>, place: u8, table: &Table, n: usize)
    requires room { HasRoom page.old (line_most + number_room) }
    requires node { n < nodes }
    ensures same_reference { page.new.text.ghost_name ≡ page.old.text.ghost_name }
    ensures put { Puts page.old (node_text (somewhere place) (told_on table.now.cells n) n) page.new }
{
    if place == Plan::NOWHERE {
        return;
    }
    page.digits(n);
    page.put(b':');
    row(page, table, n);
    page.put(b'\n');
}

// The lines of the listed nodes.
fn node_lines<'a>(page: &mut Page<'a>, plan: &Plan, table: &Table)
    requires { HasRoom page.old (nodes * line_most + number_room) }
    ensures same_reference { page.new.text.ghost_name ≡ page.old.text.ghost_name }
    ensures put { Puts page.old (node_texts (is_listed plan.now.places) (told_on table.now.cells) nodes) page.new }
{
    for n in 0..Node::COUNT {
        node_line(page, plan.places[n], table, n);
    }
}

// All that is shown for some bytes: the first line, and where the end record was reached the lines of the nodes. For these the bytes are scanned once more, since
// a reading that is refused for the whole plan hands back the empty one.
pub fn show(text: &mut [u8], bytes: &[u8]) -> usize
    requires { shown_room ≤ length text.old }
    ensures { Put text.old 0 (shown_text bytes.now) text.new result }
{
    let mut page = Page { text, at: 0 };
    first_line(&mut page, plan::read(bytes));
    let scanned = plan::scan(bytes);
    let Ok(_) = scanned.answer else {
        return page.at;
    };
    let table = printable::dependence(scanned.plan);
    node_lines(&mut page, &scanned.plan, &table);
    page.at
}
