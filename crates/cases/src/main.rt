// Prints the report of each script on standard input. Each script is followed by a form feed.
#![tactic(auto)]

use report::report_of;
use std::io::Read;

const FORM_FEED: u8 = 12;

fn main(rt: HostRuntime) -> anyhow::Result<()> {
    let heap = rt.alloc();
    let mut input = Vec::new(heap);
    rt.stdin().read_to_end(&mut input)?;
    for part in input.split_inclusive(|b| *b == FORM_FEED) {
        if let Some(script) = part.strip_suffix(&[FORM_FEED]) {
            rt.print(report_of(heap, script)?)?;
        }
    }
    Ok(())
}
