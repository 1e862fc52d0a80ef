// Each error tells the roll that was shown, so that its text says what was reached.
use anyhow::anyhow;
use recipe::Recipe;
use roll::Roll;
use shows::Shows;
use shows::largest::show_largest;
use shows::walk::walk;
use std::test::Fail;

// Ends with an error: as soon as it is shown anything, or only where cells are barred.
#[derive(Drop)]
struct Ends {
    where_barred: bool,
}

fn told(when: &str, roll: &Roll) -> anyhow::Error {
    anyhow!(
        "{when}: {} cells, {} readings, {} bars",
        roll.size().cells,
        roll.readings().len(),
        roll.bars().len()
    )
}

impl Shows for Ends {
    fn recorded(&self, roll: &Roll, _recipe: &Recipe) -> anyhow::Result<()> {
        if self.where_barred {
            return Ok(());
        }
        Err(told("recorded", roll))
    }

    fn barred(&self, roll: &Roll, _recipe: &Recipe) -> anyhow::Result<()> {
        Err(told("barred", roll))
    }
}

#[test]
fn an_error_ends_the_walk(rt: HostRuntime) -> Result<(), Fail> {
    for (where_barred, text) in [
        (false, "recorded: 10 cells, 3 readings, 0 bars"),
        (true, "barred: 10 cells, 3 readings, 1 bars"),
    ] {
        let Err(error) = walk(&rt, &Ends { where_barred }) else {
            return Err(Fail::new("the error ends the walk"));
        };
        assert_eq!(rt; error.to_string(rt.alloc())?.as_str(), text);
    }
    walk(&rt, &())?;
    Ok(())
}

#[test]
fn an_error_ends_the_largest_rolls(rt: HostRuntime) -> Result<(), Fail> {
    for (where_barred, text) in [
        (false, "recorded: 16384 cells, 32768 readings, 0 bars"),
        (true, "barred: 16384 cells, 32768 readings, 64 bars"),
    ] {
        let Err(error) = show_largest(&rt, &Ends { where_barred }) else {
            return Err(Fail::new("the error ends the largest rolls"));
        };
        assert_eq!(rt; error.to_string(rt.alloc())?.as_str(), text);
    }
    show_largest(&rt, &())?;
    Ok(())
}
