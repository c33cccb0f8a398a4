//! Reads an input of up to 1,000 entries from standard input, and writes its statement, or the first refusal, to standard output.
#![tactic(auto)]

use files::stream::write_answer;
use std::io::Read;
use std::process::ExitCode;
use stores::slip_box::SlipBox;

/// The slips of the program's slip box.
const SLIPS: u64 = 1_000;

// After a refusal, which is told on standard output, the exit status is 1.
fn main(rt: HostRuntime) -> anyhow::Result<ExitCode> {
    let heap = rt.alloc();
    let mut input = Vec::new(heap);
    let _ = rt.stdin().read_to_end(&mut input)?;
    let store = SlipBox::new(heap, SLIPS)?;
    let refused = write_answer(store, &input, &mut rt.stdout())?;
    Ok(ExitCode::from(u8::from(refused)))
}
