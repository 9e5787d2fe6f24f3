//! Whether two entries say the same.

ghost use Rattle.std.specs.Prelude.{◌≡◌, ◌↔◌, IsTrue};

use crate::same::{is_answer, is_phase, is_same_number};
use sleep_model::Kind;

/// Whether both are the same entry. `&` in place of `&&` spares the proof a path each time.
pub(crate) fn is_kind(kind: Kind, wanted: Kind) -> bool
    ensures { IsTrue result ↔ (kind ≡ wanted) }
{
    match (kind, wanted) {
        (Kind::Frozen, Kind::Frozen) => true,
        (Kind::ReadWait, Kind::ReadWait) => true,
        (Kind::Read(n), Kind::Read(m)) => n == m,
        (Kind::ReadIntr, Kind::ReadIntr) => true,
        (Kind::SaveWait(n), Kind::SaveWait(m)) => n == m,
        (Kind::Saved(n), Kind::Saved(m)) => n == m,
        (Kind::SaveErr(n, r), Kind::SaveErr(m, s)) => (n == m) & (r == s),
        (Kind::StateWait, Kind::StateWait) => true,
        (Kind::StateErr(r), Kind::StateErr(s)) => r == s,
        (Kind::StateUnsaved, Kind::StateUnsaved) => true,
        (Kind::AutoBad, Kind::AutoBad) => true,
        (Kind::AutoSet(state), Kind::AutoSet(other)) => state == other,
        (Kind::AutoDone, Kind::AutoDone) => true,
        (Kind::Sleep(n), Kind::Sleep(m)) => n == m,
        (Kind::SleepD(n), Kind::SleepD(m)) => n == m,
        (Kind::Slept, Kind::Slept) => true,
        (Kind::Pass, Kind::Pass) => true,
        (Kind::Post(n), Kind::Post(m)) => n == m,
        (Kind::Got(n), Kind::Got(m)) => n == m,
        (Kind::Exit, Kind::Exit) => true,
        (
            Kind::RuntimeAsk {
                device,
                to_suspended,
                r,
            },
            Kind::RuntimeAsk {
                device: d,
                to_suspended: to,
                r: s,
            },
        ) => (device == d) & (to_suspended == to) & is_answer(r, s),
        (
            Kind::LinkAdd {
                supplier,
                consumer,
                r,
            },
            Kind::LinkAdd {
                supplier: x,
                consumer: y,
                r: s,
            },
        ) => (supplier == x) & (consumer == y) & is_answer(r, s),
        (
            Kind::LinkState {
                supplier,
                consumer,
                active,
                r,
            },
            Kind::LinkState {
                supplier: x,
                consumer: y,
                active: to,
                r: s,
            },
        ) => (supplier == x) & (consumer == y) & (active == to) & is_answer(r, s),
        (Kind::AutoRun, Kind::AutoRun) => true,
        (Kind::AutoSaved(n), Kind::AutoSaved(m)) => n == m,
        (Kind::AutoUnsaved(n), Kind::AutoUnsaved(m)) => n == m,
        (Kind::AutoAfter(seen), Kind::AutoAfter(other)) => is_same_number(seen, other),
        (Kind::AutoAgain, Kind::AutoAgain) => true,
        (Kind::AutoOff, Kind::AutoOff) => true,
        (Kind::Awake(n), Kind::Awake(m)) => n == m,
        (Kind::Relax(n), Kind::Relax(m)) => n == m,
        (
            Kind::Event { source, ms, hard },
            Kind::Event {
                source: t,
                ms: time,
                hard: counts,
            },
        ) => (source == t) & (ms == time) & (hard == counts),
        (Kind::Expire(n), Kind::Expire(m)) => n == m,
        (Kind::Start(n), Kind::Start(m)) => n == m,
        (Kind::Finish(n), Kind::Finish(m)) => n == m,
        (Kind::Hard(n), Kind::Hard(m)) => n == m,
        (Kind::Jump, Kind::Jump) => true,
        (
            Kind::Attempt { n, guarded },
            Kind::Attempt {
                n: m,
                guarded: other,
            },
        ) => (n == m) & is_same_number(guarded, other),
        (Kind::Over { n, r }, Kind::Over { n: m, r: s }) => (n == m) & is_answer(r, s),
        (Kind::NotifyPrepare(n, r), Kind::NotifyPrepare(m, s)) => (n == m) & is_answer(r, s),
        (Kind::NotifyPost(n), Kind::NotifyPost(m)) => n == m,
        (Kind::Freeze(g), Kind::Freeze(h)) => g == h,
        (Kind::Froze(g, end), Kind::Froze(h, other)) => (g == h) & (end == other),
        (Kind::Thaw(those), Kind::Thaw(other)) => those == other,
        (Kind::PlatformDo(step, r), Kind::PlatformDo(other, s)) => (step == other)
            & is_answer(r, s),
        (Kind::PlatformUndo(step), Kind::PlatformUndo(other)) => step == other,
        (Kind::Prepare { device, r }, Kind::Prepare { device: d, r: s }) => (device == d)
            & (r == s),
        (Kind::Complete(n), Kind::Complete(m)) => n == m,
        (Kind::Schedule(p, n), Kind::Schedule(q, m)) => is_phase(p, q) & (n == m),
        (Kind::Begin(p, n), Kind::Begin(q, m)) => is_phase(p, q) & (n == m),
        (Kind::End(p, n, r), Kind::End(q, m, s)) => is_phase(p, q) & (n == m) & is_answer(r, s),
        (Kind::Skip(p, n, cause), Kind::Skip(q, m, other)) => is_phase(p, q)
            & (n == m)
            & (cause == other),
        (Kind::Done(p, r), Kind::Done(q, s)) => is_phase(p, q) & is_answer(r, s),
        (Kind::CpuOff(n), Kind::CpuOff(m)) => n == m,
        (Kind::CpuBusy(n), Kind::CpuBusy(m)) => n == m,
        (Kind::CpuOn(n), Kind::CpuOn(m)) => n == m,
        (Kind::Irqs { on }, Kind::Irqs { on: other }) => on == other,
        (Kind::SyscoreCheck(r), Kind::SyscoreCheck(s)) => is_answer(r, s),
        (Kind::SyscoreSuspend(n, r), Kind::SyscoreSuspend(m, s)) => (n == m) & is_answer(r, s),
        (Kind::SyscoreResume(n), Kind::SyscoreResume(m)) => n == m,
        (Kind::Enter { busy }, Kind::Enter { busy: other }) => busy == other,
        (Kind::Wake { by_event }, Kind::Wake { by_event: other }) => by_event == other,
        (Kind::Clear, Kind::Clear) => true,
        _ => false,
    }
}
