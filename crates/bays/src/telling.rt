// What is told to C of a set in a form, and of a round.
ghost use Rattle.std.specs.Prelude.{◌≡◌};
ghost use Rattle.bays.specs.Telling.{report_numbers, told_numbers};

use super::structs::{BaysReport, BaysTold};
use forms::Told;
use round::Report;

// What was told of a set, in numbers.
pub(crate) fn told_numbers(told: Told) -> BaysTold
    ensures { result ≡ told_numbers told }
{
    match told {
        Told::Plain(told) => BaysTold {
            form: 0,
            last: told.last,
            number: 0,
            first: told.bits,
            second: 0,
            third: 0,
        },
        Told::List(told) => BaysTold {
            form: 1,
            last: told.last,
            number: 0,
            first: told.numbers,
            second: 0,
            third: 0,
        },
        Told::Zombit(told) => BaysTold {
            form: 2,
            last: told.last,
            number: told.size,
            first: told.uniform,
            second: told.marked,
            third: told.mixed,
        },
        Told::Pioneer(told) => BaysTold {
            form: 3,
            last: told.last,
            number: told.count,
            first: told.starts,
            second: told.sums,
            third: 0,
        },
    }
}

// The report of a round.
pub(crate) fn report_numbers(report: Report) -> BaysReport
    ensures { result ≡ report_numbers report }
{
    BaysReport {
        handed: report.handed,
        stretches: report.stretches,
        place: report.place,
    }
}
