//! Asks and tells a list of advisors.
ghost use Rattle.std.specs.Prelude.{◌≡◌, ◌<◌, length};
ghost use Rattle.std.specs.List.{AllZip};
ghost use Rattle.cut_advisors.specs.Choosing.{IsChosen};

use crate::{Advisor, Candidate};
use design_problem::Entry;

/// The answer of one advisor.
fn ask(advisor: &mut Box<dyn Advisor>, candidates: &[Candidate]) -> u32
    ensures answer { result ≡ (⟦<dyn Advisor as Advisor>⟧ advisor.old.vtable).would
        (state advisor.old) candidates.now }
    ensures state { state advisor.new ≡ (⟦<dyn Advisor as Advisor>⟧ advisor.old.vtable).left
        (state advisor.old) candidates.now }
    ensures itself { advisor.new.vtable ≡ advisor.old.vtable }
{
    advisor.pick(candidates)
}

/// Tells one advisor.
fn tell_one(advisor: &mut Box<dyn Advisor>, entry: &Entry)
    ensures state { state advisor.new ≡ (⟦<dyn Advisor as Advisor>⟧ advisor.old.vtable).after
        (state advisor.old) entry.now }
    ensures itself { advisor.new.vtable ≡ advisor.old.vtable }
{
    advisor.told(entry)
}

/// The position among the candidates that the first advisor with an answer in range picks; 0 where none has one.
///
/// The advisors before it, whose answers are out of range, are removed and dropped, and no other. It keeps its rules
/// and stands at the state that its answer leaves; those after it stay as they are. No memory is taken.
pub fn choose(advisors: &mut Vec<Box<dyn Advisor>>, candidates: &[Candidate]) -> u32
    requires { 0 < length candidates.now }
    ensures in_range { result < length candidates.now }
    ensures chosen { IsChosen (λ b. (⟦<dyn Advisor as Advisor>⟧ b.vtable).would (state b)
        candidates.now) (λ b c. (c.vtable ≡ b.vtable) ×
        (state c ≡ (⟦<dyn Advisor as Advisor>⟧ b.vtable).left (state b) candidates.now))
        (length candidates.now) advisors.old.items result advisors.new.items }
{
    while !advisors.is_empty() {
        let answer = ask(&mut advisors[0], candidates);
        if (answer as usize) < candidates.len() {
            return answer;
        }
        advisors.remove(0);
    }
    0
}

/// Tells each advisor of the entry, once and in order. Every advisor stays in its place. No memory is taken.
pub fn tell(advisors: &mut Vec<Box<dyn Advisor>>, entry: &Entry)
    ensures { AllZip (λ b c. (c.vtable ≡ b.vtable) ×
        (state c ≡ (⟦<dyn Advisor as Advisor>⟧ b.vtable).after (state b) entry.now))
        advisors.old.items advisors.new.items }
{
    for advisor in advisors.iter_mut() {
        tell_one(advisor, entry);
    }
}
