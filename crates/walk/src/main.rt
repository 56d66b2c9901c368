// Walks a trail through a model and prints each step: model.hd and trail.hd of the current folder.
#![tactic(auto)]

use files::found;
use std::fs;
use walking::walk_text;

fn run(rt: &HostRuntime) -> anyhow::Result<()> {
    let heap = rt.alloc();
    // a missing model counts as empty
    let model = found(fs::read(rt, "model.hd"))?.unwrap_or_else(|| Vec::new(heap));
    let trail = found(fs::read(rt, "trail.hd"))?;
    let text = walk_text(heap, &model, trail.as_deref())?;
    print!(rt; "{text}")?;
    Ok(())
}

fn main(rt: HostRuntime) -> anyhow::Result<()> {
    run(&rt)
}
