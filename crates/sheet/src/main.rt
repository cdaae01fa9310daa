// Runs the site book, the check of plan values and the constructors on the level sheet's cases, and writes a line for each.
#![tactic(auto)]

use audit::check;
use ids::{Level, Node, Site, Ticket};
use model::{Admission, Edge, Highest, Plan, ReadFault, RoomRefused, SiteRefused};
use std::io;

// The count of each level where calls of these levels are active.
fn counts_of(active: &[u8]) -> [u8; Site::THREADS] {
    let mut counts = [0u8; Site::THREADS];
    for level in active {
        if let Some(count) = counts.get_mut(*level as usize) {
            *count = count.saturating_add(1);
        }
    }
    counts
}

// The first half of a line: the threads and the levels of the active calls.
fn say_site(rt: &HostRuntime, threads: u8, active: &[u8]) -> io::Result<()> {
    print!(rt; "threads {threads} active")?;
    for level in active {
        print!(rt; " {level}")?;
    }
    print!(rt; ": ")
}

// The level answer of a site, and what C gets.
fn show_level(rt: &HostRuntime, threads: u8, active: &[u8]) -> io::Result<()> {
    let counts = counts_of(active);
    say_site(rt, threads, active)?;
    match book::level(threads, &counts) {
        Ok(
            Highest {
                level: Some(level),
                stood,
            },
        ) => print!(rt; "highest {}, tree nodes {stood}", level.0)?,
        Ok(Highest { level: None, stood }) => print!(rt; "none, tree nodes {stood}")?,
        Err(SiteRefused) => print!(rt; "refused")?,
    }
    let for_c = book::admission_level(threads as u32, &counts);
    println!(rt; "; for C {for_c}")
}

// What C gets for any thread count and any number of counts.
fn show_for_c(rt: &HostRuntime, threads: u32, counts: &[u8]) -> io::Result<()> {
    let length = counts.len();
    let for_c = book::admission_level(threads, counts);
    println!(rt; "threads {threads}, counts {length}: for C {for_c}")
}

fn show_admission(rt: &HostRuntime, threads: u8, active: &[u8], level: u8) -> io::Result<()> {
    let counts = counts_of(active);
    say_site(rt, threads, active)?;
    match book::admission(threads, &counts, Level(level)) {
        Ok(Admission::Admitted) => println!(rt; "level {level} may be admitted"),
        Ok(Admission::Waits(blocked_by)) => {
            println!(rt; "level {level} waits for level {}", blocked_by.0)
        }
        Err(SiteRefused) => println!(rt; "level {level} is refused"),
    }
}

fn show_room(rt: &HostRuntime, threads: u8, active: &[u8], level: u8) -> io::Result<()> {
    let counts = counts_of(active);
    say_site(rt, threads, active)?;
    match book::room(threads, &counts, Level(level)) {
        Ok(room) => println!(rt; "room at level {level} is {room}"),
        Err(RoomRefused::NoSuchLevel) => println!(rt; "room at level {level} is refused 30"),
        Err(RoomRefused::Site) => println!(rt; "room at level {level} is refused 255"),
    }
}

fn edge(caller: u8, callee: u8) -> Edge {
    Edge {
        caller: Node(caller),
        callee: Node(callee),
    }
}

// Two sites of 2 threads; nodes 0 at site 0, 1 and 2 at site 1, 3 at site 0; edges 0 to 1 and 2 to 3; all levels 0 but that of node 2.
fn two_sites(level: u8) -> Plan {
    let mut plan = record::empty();
    plan.threads[..2].copy_from_slice(&[2, 2]);
    plan.places[..4].copy_from_slice(&[0, 1, 1, 0]);
    plan.levels[..4].copy_from_slice(&[0, 0, level, 0]);
    plan.pairs[..2].copy_from_slice(&[edge(0, 1), edge(2, 3)]);
    plan.edges = 2;
    plan
}

// One site of 64 threads with one node.
fn one_node(level: u8) -> Plan {
    let mut plan = record::empty();
    plan.threads[0] = 64;
    plan.places[0] = 0;
    plan.levels[0] = level;
    plan
}

// The refusal's number, or 0.
fn show_fault(rt: &HostRuntime, words: &str, plan: Plan) -> io::Result<()> {
    let fault = match check(plan).checked {
        Ok(()) => 0,
        Err(why) => u8::from(why),
    };
    println!(rt; "{words}: fault {fault}")
}

fn show_read(rt: &HostRuntime, words: &str, bytes: &[u8]) -> io::Result<()> {
    match plan::read(bytes).answer {
        Ok(used) => println!(rt; "{words}: accepted, bytes {used}"),
        Err(ReadFault { why, offset }) => {
            let number = u8::from(why);
            println!(rt; "{words}: refused {number} at {offset}")
        }
    }
}

fn told(made: bool) -> &'static str {
    if made { "made" } else { "refused" }
}

// A number as a site, a node and a level.
fn show_new(rt: &HostRuntime, number: u8) -> io::Result<()> {
    let site = told(Site::new(number).is_some());
    let node = told(Node::new(number).is_some());
    let level = told(Level::new(number).is_some());
    println!(rt; "number {number}: site {site}, node {node}, level {level}")
}

fn show_new_ticket(rt: &HostRuntime, number: u16) -> io::Result<()> {
    let ticket = told(Ticket::new(number).is_some());
    println!(rt; "number {number}: ticket {ticket}")
}

// The level sheet's sites.
fn levels(rt: &HostRuntime) -> io::Result<()> {
    show_level(rt, 10, &[1, 2, 3, 4, 4, 4, 5, 6, 9])?;
    show_level(rt, 10, &[1, 2, 4, 4, 4, 5, 6, 9])?;
    show_level(rt, 10, &[1, 2, 4, 4, 5, 6, 9])?;
    show_level(rt, 3, &[1, 1])?;
    show_level(rt, 1, &[])?;
    show_level(rt, 1, &[0])?;
    show_level(rt, 64, &[])
}

// The refusals of a site, each alone.
fn refusals(rt: &HostRuntime) -> io::Result<()> {
    show_level(rt, 0, &[])?;
    show_level(rt, 65, &[])?;
    show_level(rt, 3, &[3])?;
    show_level(rt, 3, &[1, 1, 1])?;
    let counts = counts_of(&[]);
    show_for_c(rt, 64, &counts)?;
    show_for_c(rt, 320, &counts)?;
    show_for_c(rt, 3, &[0, 0, 0])
}

fn admissions(rt: &HostRuntime) -> io::Result<()> {
    show_admission(rt, 3, &[1, 1], 0)?;
    show_admission(rt, 3, &[1, 1], 2)?;
    show_admission(rt, 3, &[1, 1], 3)?;
    show_admission(rt, 3, &[1, 1, 1], 0)?;
    show_room(rt, 3, &[1, 1], 0)?;
    show_room(rt, 3, &[1, 1], 2)?;
    show_room(rt, 3, &[1, 1], 3)?;
    show_room(rt, 3, &[1, 1, 1], 3)
}

fn plans(rt: &HostRuntime) -> io::Result<()> {
    show_fault(rt, "two sites, all levels 0", two_sites(0))?;
    show_fault(rt, "two sites, node 2 at level 1", two_sites(1))?;
    show_fault(rt, "64 threads, level 63", one_node(63))?;
    show_fault(rt, "64 threads, level 64", one_node(64))?;
    show_read(rt, "the empty input", &[])?;
    show_read(rt, "the end record alone", &[4])
}

fn makings(rt: &HostRuntime) -> io::Result<()> {
    show_new(rt, 15)?;
    show_new(rt, 16)?;
    show_new(rt, 63)?;
    show_new(rt, 64)?;
    show_new_ticket(rt, 0)?;
    show_new_ticket(rt, 65535)
}

fn sheet(rt: &HostRuntime) -> io::Result<()> {
    levels(rt)?;
    refusals(rt)?;
    admissions(rt)?;
    plans(rt)?;
    makings(rt)
}

// Where a line cannot be written there is no one to be told.
fn main(rt: HostRuntime) {
    let _ = sheet(&rt);
}
