// Judges a plan and prints the report: model.hd, cover.hd and trail.hd of the current folder.
#![tactic(auto)]

use files::found;
use judging::judge_text;
use std::fs;
use zone::Zone;

fn run(rt: &HostRuntime) -> anyhow::Result<()> {
    let heap = rt.alloc();
    // a missing model counts as empty
    let model = found(fs::read(rt, "model.hd"))?.unwrap_or_else(|| Vec::new(heap));
    let cover = found(fs::read(rt, "cover.hd"))?;
    let trail = found(fs::read(rt, "trail.hd"))?;
    let text = judge_text::<Zone>(heap, &model, cover.as_deref(), trail.as_deref())?;
    print!(rt; "{text}")?;
    Ok(())
}

fn main(rt: HostRuntime) -> anyhow::Result<()> {
    run(&rt)
}
