// The one surface: every entry over plain numbers and slices. api_c exports it to C.
// (An edition stays a number, here and in the crates below: C gives it so, and a wrong one is refused with 2.)
#![tactic(auto)]

ghost use Rattle.rules.specs.Table.{WantsIs};
ghost use Rattle.api.specs.Answers.{TellsHeld, TellsLeast, TellsCurve, TellsCheck, TellsBuild, TellsFill, TellsCounted, TellsMany, TellsChange, TellsVerdict, TellsPlain, TellsPage, TellsRead, TellsSection, TellsWrite, TellsList, TellsOpen, TellsRequest};

use desk::{Ask, Desk, Job};
use rules::{Terms, Told};

pub fn merkazobi_wants(granule: usize, m: u16, num: u16, den: u16) -> usize
    ensures { WantsIs granule m num den result }
{
    rules::records::wants(granule, m, num, den)
}

pub fn merkazobi_held(edition: usize, plan: &[u16], p: u16, s: u32, n: u32) -> Told
    ensures { TellsHeld edition plan.now p s n result }
{
    answers::tell(plan_service::held(edition, plan, p, s, n))
}

pub fn merkazobi_least(edition: usize, plan: &[u16], p: u16, t: u32) -> Told
    ensures { TellsLeast edition plan.now p t result }
{
    answers::tell(plan_service::least(edition, plan, p, t))
}

pub fn merkazobi_curve(edition: usize, plan: &[u16], p: u16, n: u32, list: &mut [u32]) -> Told
    ensures { TellsCurve edition plan.now p n list.old list.new result }
{
    answers::tell(plan_curve::curve(edition, plan, p, n, list))
}

pub fn merkazobi_check(edition: usize, granule: usize, plan: &[u16], parts: &[u16]) -> Told
    ensures { TellsCheck edition granule plan.now parts.now result }
{
    answers::tell(plan_check::check(Terms { edition, granule }, plan, parts))
}

pub fn merkazobi_build(granule: usize, parts: &[u16], out: &mut [u16]) -> Told
    ensures { TellsBuild granule parts.now out.old out.new result }
{
    answers::tell(plan_build::build(
        Terms {
            edition: 1,
            granule,
        },
        parts,
        out,
    ))
}

pub fn merkazobi_counts_fill(plan: &[u16], parts: &[u16], list: &mut [u16]) -> Told
    ensures { TellsFill plan.now parts.now list.old list.new result }
{
    answers::tell(plan_counts::fill(plan, parts, list))
}

pub fn merkazobi_counts_held(
    plan: &[u16],
    parts: &[u16],
    list: &[u16],
    partition: usize,
    start: usize,
    length: usize,
) -> Told
    ensures { TellsCounted plan.now parts.now list.now
        partition start length result }
{
    answers::tell(plan_counts::held(plan, parts, list, partition, start, length))
}

pub fn merkazobi_counts_held_many(
    plan: &[u16],
    parts: &[u16],
    list: &[u16],
    questions: &[u16],
    answers: &mut [u16],
) -> Told
    ensures { TellsMany plan.now parts.now list.now questions.now
        answers.old answers.new result }
{
    answers::tell(plan_counts::held_many(plan, parts, list, questions, answers))
}

pub fn merkazobi_counts_change(
    plan: &mut [u16],
    parts: &[u16],
    list: &mut [u16],
    tick: usize,
    owner: usize,
) -> Told
    ensures { TellsChange plan.old parts.now list.old tick owner
        plan.new list.new result }
{
    answers::tell(plan_counts::change(plan, parts, list, tick, owner))
}

pub fn merkazobi_verdict(
    edition: usize,
    granule: usize,
    plan: &[u16],
    parts: &[u16],
    tasks: &[u16],
    place: usize,
) -> Told
    ensures { TellsVerdict edition granule plan.now parts.now tasks.now
        place result }
{
    answers::tell(task_verdict::verdict(Terms { edition, granule }, plan, parts, tasks, place))
}

pub fn merkazobi_plain(
    edition: usize,
    granule: usize,
    plan: &[u16],
    parts: &[u16],
    tasks: &[u16],
    place: usize,
) -> Told
    ensures { TellsPlain edition granule plan.now parts.now tasks.now
        place result }
{
    answers::tell(task_verdict::plain(Terms { edition, granule }, plan, parts, tasks, place))
}

pub fn merkazobi_page(
    edition: usize,
    granule: usize,
    plan: &[u16],
    parts: &[u16],
    tasks: &[u16],
    place: usize,
    rows: &mut [u32],
) -> Told
    ensures { TellsPage edition granule plan.now parts.now tasks.now
        place rows.old rows.new result }
{
    answers::tell(task_page::page(Terms { edition, granule }, plan, parts, tasks, place, rows))
}

pub fn merkazobi_read(file: &[u8]) -> Told
    ensures { TellsRead file.now result }
{
    answers::tell(file_read::read(file))
}

pub fn merkazobi_section(file: &[u8], which: usize) -> Told
    ensures { TellsSection file.now which result }
{
    answers::tell_part(which, file_read::read(file))
}

pub fn merkazobi_write(
    edition: usize,
    frame: usize,
    parts: &[u16],
    tasks: &[u16],
    runs: &[u16],
    out: &mut [u8],
) -> Told
    ensures { TellsWrite edition frame parts.now tasks.now runs.now
        out.old out.new result }
{
    answers::tell(file_write::write(edition, frame, parts, tasks, runs, out))
}

pub fn merkazobi_list(file: &[u8], out: &mut [u8]) -> Told
    ensures { TellsList file.now out.old out.new result }
{
    answers::tell(file_listing::listing(file, out))
}

pub fn merkazobi_open(desk: &mut Desk, jobs: &mut [Job]) -> Told
    ensures { TellsOpen desk.old jobs.old desk.new jobs.new result }
{
    answers::tell(desk_lent::call(desk, jobs, Ask::Open))
}

pub fn merkazobi_request(desk: &mut Desk, jobs: &mut [Job], t: u32, c: u32, d: u32) -> Told
    ensures { TellsRequest desk.old jobs.old t c d
        desk.new jobs.new result }
{
    answers::tell(desk_lent::call(desk, jobs, answers::to_request(t, c, d)))
}
