// panel: reads a script of panel calls from standard input, one a line, and answers each.

#![tactic(auto)]

mod answers;
mod panels;
mod script;
mod words;

use panels::Panel;
use std::alloc::{AllocError, Global};
use std::io::{Read, Write};

// The answers to a script.
fn answers_to(heap: Global, script: &[u8]) -> Result<Vec<u8>, AllocError> {
    let mut panel = Panel::new(heap);
    for (k, line) in script.split(|b| *b == b'\n').enumerate() {
        panel.take_line(k.saturating_add(1), line)?;
    }
    panel.finish()
}

fn main(rt: HostRuntime) -> anyhow::Result<()> {
    let heap = rt.alloc();
    let mut script = Vec::new(heap);
    rt.stdin().read_to_end(&mut script)?;
    let text = answers_to(heap, &script)?;
    rt.stdout().write_all(&text)?;
    Ok(())
}
