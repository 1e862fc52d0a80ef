// What one parameter says of one cell.
ghost use Rattle.std.specs.Prelude.{Some};
ghost use Rattle.model.specs.Texts.{verdict_text};

use std::fmt;

#[derive(Clone, Copy, PartialEq, Eq, Debug)]
pub enum Verdict {
    Within,
    Outlier,
}

impl fmt::Display for Verdict {
    ghost output = { λ v. Some (verdict_text v) };

    fn fmt<W: fmt::Write>(&self, f: &mut fmt::Formatter<W>) -> fmt::Result {
        f.write_str(match self {
            Verdict::Within => "within",
            Verdict::Outlier => "outlier",
        })
    }
}
