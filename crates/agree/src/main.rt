// Reads a script from standard input and prints its report.
#![tactic(auto)]

use report::report_of;
use script::MAX_BYTES;
use std::io::Read;

// One byte more than a script may have is enough to see that it is too long. A constant calls no function, hence the
// cast.
const READ_LIMIT: u64 = MAX_BYTES as u64 + 1;

fn main(rt: HostRuntime) -> anyhow::Result<()> {
    let heap = rt.alloc();
    let mut script = Vec::new(heap);
    rt.stdin().take(READ_LIMIT).read_to_end(&mut script)?;
    rt.print(report_of(heap, &script)?)?;
    Ok(())
}
