// The static library: each entry of api exported to C, under its name and with its clauses. include/merkazobi.h declares it.
#![tactic(auto)]

ghost use Rattle.rules.specs.Table.{WantsIs};
ghost use Rattle.api.specs.Answers.{TellsHeld, TellsLeast, TellsCurve, TellsCheck, TellsBuild, TellsFill, TellsCounted, TellsMany, TellsChange, TellsVerdict, TellsPlain, TellsPage, TellsRead, TellsSection, TellsWrite, TellsList, TellsOpen, TellsRequest};

use desk::{Desk, Job};
use rules::Told;

#[unsafe(no_mangle)]
pub extern "C" fn merkazobi_wants(granule: usize, m: u16, num: u16, den: u16) -> usize
    ensures { WantsIs granule m num den result }
{
    api::merkazobi_wants(granule, m, num, den)
}

#[unsafe(no_mangle)]
pub extern "C" fn merkazobi_held(edition: usize, plan: &[u16], p: u16, s: u32, n: u32) -> Told
    ensures { TellsHeld edition plan.now p s n result }
{
    api::merkazobi_held(edition, plan, p, s, n)
}

#[unsafe(no_mangle)]
pub extern "C" fn merkazobi_least(edition: usize, plan: &[u16], p: u16, t: u32) -> Told
    ensures { TellsLeast edition plan.now p t result }
{
    api::merkazobi_least(edition, plan, p, t)
}

#[unsafe(no_mangle)]
pub extern "C" fn merkazobi_curve(
    edition: usize,
    plan: &[u16],
    p: u16,
    n: u32,
    list: &mut [u32],
) -> Told
    ensures { TellsCurve edition plan.now p n list.old list.new result }
{
    api::merkazobi_curve(edition, plan, p, n, list)
}

#[unsafe(no_mangle)]
pub extern "C" fn merkazobi_check(
    edition: usize,
    granule: usize,
    plan: &[u16],
    parts: &[u16],
) -> Told
    ensures { TellsCheck edition granule plan.now parts.now result }
{
    api::merkazobi_check(edition, granule, plan, parts)
}

#[unsafe(no_mangle)]
pub extern "C" fn merkazobi_build(granule: usize, parts: &[u16], out: &mut [u16]) -> Told
    ensures { TellsBuild granule parts.now out.old out.new result }
{
    api::merkazobi_build(granule, parts, out)
}

#[unsafe(no_mangle)]
pub extern "C" fn merkazobi_counts_fill(plan: &[u16], parts: &[u16], list: &mut [u16]) -> Told
    ensures { TellsFill plan.now parts.now list.old list.new result }
{
    api::merkazobi_counts_fill(plan, parts, list)
}

#[unsafe(no_mangle)]
pub extern "C" fn merkazobi_counts_held(
    plan: &[u16],
    parts: &[u16],
    list: &[u16],
    partition: usize,
    start: usize,
    length: usize,
) -> Told
    ensures { TellsCounted plan.now parts.now list.now
        partition start length result }
{
    api::merkazobi_counts_held(plan, parts, list, partition, start, length)
}

#[unsafe(no_mangle)]
pub extern "C" fn merkazobi_counts_held_many(
    plan: &[u16],
    parts: &[u16],
    list: &[u16],
    questions: &[u16],
    answers: &mut [u16],
) -> Told
    ensures { TellsMany plan.now parts.now list.now questions.now
        answers.old answers.new result }
{
    api::merkazobi_counts_held_many(plan, parts, list, questions, answers)
}

#[unsafe(no_mangle)]
pub extern "C" fn merkazobi_counts_change(
    plan: &mut [u16],
    parts: &[u16],
    list: &mut [u16],
    tick: usize,
    owner: usize,
) -> Told
    ensures { TellsChange plan.old parts.now list.old tick owner
        plan.new list.new result }
{
    api::merkazobi_counts_change(plan, parts, list, tick, owner)
}

#[unsafe(no_mangle)]
pub extern "C" fn merkazobi_verdict(
    edition: usize,
    granule: usize,
    plan: &[u16],
    parts: &[u16],
    tasks: &[u16],
    place: usize,
) -> Told
    ensures { TellsVerdict edition granule plan.now parts.now tasks.now
        place result }
{
    api::merkazobi_verdict(edition, granule, plan, parts, tasks, place)
}

#[unsafe(no_mangle)]
pub extern "C" fn merkazobi_plain(
    edition: usize,
    granule: usize,
    plan: &[u16],
    parts: &[u16],
    tasks: &[u16],
    place: usize,
) -> Told
    ensures { TellsPlain edition granule plan.now parts.now tasks.now
        place result }
{
    api::merkazobi_plain(edition, granule, plan, parts, tasks, place)
}

#[unsafe(no_mangle)]
pub extern "C" fn merkazobi_page(
    edition: usize,
    granule: usize,
    plan: &[u16],
    parts: &[u16],
    tasks: &[u16],
    place: usize,
    rows: &mut [u32],
) -> Told
    ensures { TellsPage edition granule plan.now parts.now tasks.now
        place rows.old rows.new result }
{
    api::merkazobi_page(edition, granule, plan, parts, tasks, place, rows)
}

#[unsafe(no_mangle)]
pub extern "C" fn merkazobi_read(file: &[u8]) -> Told
    ensures { TellsRead file.now result }
{
    api::merkazobi_read(file)
}

#[unsafe(no_mangle)]
pub extern "C" fn merkazobi_section(file: &[u8], which: usize) -> Told
    ensures { TellsSection file.now which result }
{
    api::merkazobi_section(file, which)
}

#[unsafe(no_mangle)]
pub extern "C" fn merkazobi_write(
    edition: usize,
    frame: usize,
    parts: &[u16],
    tasks: &[u16],
    runs: &[u16],
    out: &mut [u8],
) -> Told
    ensures { TellsWrite edition frame parts.now tasks.now runs.now
        out.old out.new result }
{
    api::merkazobi_write(edition, frame, parts, tasks, runs, out)
}

#[unsafe(no_mangle)]
pub extern "C" fn merkazobi_list(file: &[u8], out: &mut [u8]) -> Told
    ensures { TellsList file.now out.old out.new result }
{
    api::merkazobi_list(file, out)
}

#[unsafe(no_mangle)]
pub extern "C" fn merkazobi_open(desk: &mut Desk, jobs: &mut [Job]) -> Told
    ensures { TellsOpen desk.old jobs.old desk.new jobs.new result }
{
    api::merkazobi_open(desk, jobs)
}

#[unsafe(no_mangle)]
pub extern "C" fn merkazobi_request(
    desk: &mut Desk,
    jobs: &mut [Job],
    t: u32,
    c: u32,
    d: u32,
) -> Told
    ensures { TellsRequest desk.old jobs.old t c d
        desk.new jobs.new result }
{
    api::merkazobi_request(desk, jobs, t, c, d)
}
