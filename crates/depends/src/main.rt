// Reads a plan from standard input and shows it: the first line is the bench program's for that plan, and where the end record was reached there
// follows a line for each listed node with the nodes that it depends on. The text is `shown`'s.
#![tactic(auto)]

use model::Plan;

// The records of the largest plan, and behind them the longest record: so that whatever stands there is seen whole.
const MOST_BYTES: usize = Plan::FILE + 3;

fn main(rt: HostRuntime) {
    let mut input = [0u8; MOST_BYTES];
    let got = streams::read_full(&mut rt.stdin(), &mut input);
    let mut text = [0u8; shown::ROOM];
    let used = shown::show(&mut text, &input[..got]);
    let _ = rt.write_all(&text[..used]);
}
