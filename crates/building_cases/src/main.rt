// The routines of `building` on stored cases, each part a module: areas without room, with room for one, one entry short, with room for all, and with the mark
// set. Then two forms beside their plain neighbours: the state lent (`emitters`), and the writer of lines that carries its buffer (`line_writer`). `stdout`
// has what must be written.
#![tactic(auto)]

mod emission;
mod lent_state;
mod lines;
mod names;
mod tables;
mod taking;
mod written_lines;

use std::io;

fn main(rt: HostRuntime) -> io::Result<()> {
    lines::part(&rt, "tables")?;
    tables::cases(&rt)?;
    lines::part(&rt, "names")?;
    names::cases(&rt)?;
    lines::part(&rt, "taking")?;
    taking::cases(&rt)?;
    lines::part(&rt, "emission")?;
    emission::cases(&rt)?;
    lines::part(&rt, "lent state")?;
    lent_state::cases(&rt)?;
    lines::part(&rt, "written lines")?;
    written_lines::cases(&rt)
}
