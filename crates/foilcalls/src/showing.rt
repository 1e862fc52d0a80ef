// Answers as lines.
use crate::named::{NamedTotal, SimpleTotal};
use calls::answer::{Answer, Reply};
use calls::one_of::OneOf;
use criteria::tally::Classes;
use model::refusal::Refusal;

// In a script's answers a value that is told stands alone, without the word that it has in print.
pub(crate) fn show_refusal(rt: &HostRuntime, refusal: Refusal) -> anyhow::Result<()> {
    let number = refusal.number();
    match refusal {
        Refusal::WithoutLimits { parameter } => println!(rt; "refused {number} {parameter}")?,
        Refusal::EndsTooShort { sheets } => println!(rt; "refused {number} {sheets}")?,
        _ => println!(rt; "refused {number}")?,
    }
    Ok(())
}

// A total as words of a line, each behind a space. No `Display`: numbers, arrays and pairs are not ours to give one.
trait Shown: Drop {
    fn show(self, rt: &HostRuntime) -> anyhow::Result<()>;
}

impl Shown for SimpleTotal {
    fn show(self, rt: &HostRuntime) -> anyhow::Result<()> {
        match self {
            OneOf::First(sum) => print!(rt; " {sum}")?,
            OneOf::Second(OneOf::First(sums)) => {
                for sum in sums {
                    print!(rt; " {sum}")?;
                }
            }
            OneOf::Second(OneOf::Second(Classes { a, b, c, d })) => print!(rt; " {a} {b} {c} {d}")?,
        }
        Ok(())
    }
}

impl<T: Shown> Shown for OneOf<T, (T, T)> {
    fn show(self, rt: &HostRuntime) -> anyhow::Result<()> {
        match self {
            OneOf::First(total) => total.show(rt),
            OneOf::Second((first, second)) => {
                first.show(rt)?;
                second.show(rt)
            }
        }
    }
}

fn show_plan(rt: &HostRuntime, sheets: u32, total: NamedTotal, ends: &[u32]) -> anyhow::Result<()> {
    print!(rt; "sheets {sheets} total")?;
    total.show(rt)?;
    print!(rt; " ends")?;
    for end in ends {
        print!(rt; " {end}")?;
    }
    println!(rt; "")?;
    Ok(())
}

pub(crate) fn show_reply(rt: &HostRuntime, reply: &Reply<NamedTotal>) -> anyhow::Result<()> {
    match reply {
        Ok(Answer::Accepted) => println!(rt; "accepted")?,
        Ok(Answer::Counted { sheets, looks }) => println!(rt; "sheets {sheets} looks {looks}")?,
        Ok(Answer::Planned { plan, ends }) => show_plan(rt, plan.sheets, plan.total, ends)?,
        Err(refusal) => show_refusal(rt, *refusal)?,
    }
    Ok(())
}
