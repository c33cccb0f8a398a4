//! Reads an input of up to a whole year from standard input, and writes its statement, or the first refusal, to standard output.
#![tactic(auto)]

use entries::quarters::MOST_QUARTERS;
use files::stream::write_answer;
use std::io::Read;
use std::process::ExitCode;
use stores::year_table::YearTable;

// As the program `split` but for the store. After a refusal, which is told on standard output, the exit status is 1.
fn main(rt: HostRuntime) -> anyhow::Result<ExitCode> {
    let heap = rt.alloc();
    let mut input = Vec::new(heap);
    let _ = rt.stdin().read_to_end(&mut input)?;
    let store = YearTable::new(heap, MOST_QUARTERS)?;
    let refused = write_answer(store, &input, &mut rt.stdout())?;
    Ok(ExitCode::from(u8::from(refused)))
}
