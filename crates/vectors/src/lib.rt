// Worked examples that are run: each compares what the code answers with a number written by hand.
#![tactic(auto)]

#[cfg(test)]
mod tests {
    use costs::composition::{class_cost, total_cost, worst_cost};
    use costs::gauge::rest_cost;
    use costs::kind::{CostKind, WrittenKind};
    use costs::values::{Class, Duty, Total, Widened, Worst};
    use std::alloc::AllocError;
    use tables::rosters::is_roster;
    use tables::steps::{absorbs, value};
    use tables::table::Table;
    use tables::values::{Least, Sets, Size, Step};

    // What it costs in class to have a duty that starts at 360 after one that finishes at `finish`.
    fn class_after(finish: u16) -> Widened<Class> {
        let earlier = Duty { start: 300, finish };
        let later = Duty {
            start: 360,
            finish: 840,
        };
        rest_cost(earlier, later)
    }

    fn class(class: u8, minutes: u64) -> Widened<Class> {
        Widened::Allowed(Class { class, minutes })
    }

    #[test]
    fn gauge_edges(rt: HostRuntime) {
        assert_eq!(rt; class_after(1080), class(0, 0));
        assert_eq!(rt; class_after(1081), class(1, 1));
        assert_eq!(rt; class_after(1140), class(1, 60));
        assert_eq!(rt; class_after(1141), class(2, 61));
        assert_eq!(rt; class_after(1200), class(2, 120));
        assert_eq!(rt; class_after(1201), Widened::Forbidden);
    }

    #[test]
    fn cell_limits(rt: HostRuntime) {
        assert!(rt; Total { minutes: 1_000_000 }.may_stand());
        assert!(rt; !Total { minutes: 1_000_001 }.may_stand());
        assert!(rt; Worst { minutes: 1_000_000 }.may_stand());
        assert!(rt; !Worst { minutes: 1_000_001 }.may_stand());
        assert!(rt;
            Class {
                class: 9,
                minutes: 1_000_000,
            }
            .may_stand()
        );
        assert!(rt;
            !Class {
                class: 9,
                minutes: 1_000_001,
            }
            .may_stand()
        );
        assert!(rt;
            !Class {
                class: 10,
                minutes: 0,
            }
            .may_stand()
        );
    }

    #[test]
    fn bodies(rt: HostRuntime) {
        let mut out = [9u8; 10];
        Class {
            class: 2,
            minutes: 258,
        }
        .write_body(&mut out);
        assert_eq!(rt; out, [2, 0, 0, 0, 0, 0, 0, 1, 2, 9]);
        assert_eq!(rt;
            Class::read_body(&out),
            Class {
                class: 2,
                minutes: 258,
            }
        );
    }

    #[test]
    fn sizes(rt: HostRuntime) {
        assert!(rt; Size::of(0).is_none());
        assert!(rt; Size::of(1).is_some());
        assert!(rt; Size::of(32).is_some());
        assert!(rt; Size::of(33).is_none());
    }

    #[test]
    fn rosters(rt: HostRuntime) {
        assert!(rt; is_roster(&[1, 0], 2));
        assert!(rt; !is_roster(&[1, 1], 2));
        assert!(rt; !is_roster(&[0, 2], 2));
        assert!(rt; !is_roster(&[0], 2));
        assert!(rt; !is_roster(&[0, 1, 2], 2));
    }

    fn cell(minutes: u64) -> Widened<Total> {
        Widened::Allowed(Total { minutes })
    }

    fn longest(minutes: u32) -> Widened<Worst> {
        Widened::Allowed(Worst { minutes })
    }

    #[test]
    fn rows_of_cells(rt: HostRuntime) {
        assert_eq!(rt; total_cost(&[cell(30), cell(50)]), cell(80));
        assert_eq!(rt;
            total_cost(&[cell(30), Widened::Forbidden]),
            Widened::Forbidden
        );
        assert_eq!(rt; worst_cost(&[longest(30), longest(50)]), longest(50));
        assert_eq!(rt;
            class_cost(&[class(1, 50), class(0, 0), class(1, 30)]),
            class(1, 80)
        );
        assert_eq!(rt; class_cost(&[class(1, 50), class(2, 61)]), class(2, 61));
    }

    // A cost has one text, whatever width, filling or sign the caller's format asks for.
    #[test]
    fn one_text(rt: HostRuntime) -> Result<(), AllocError> {
        let alloc = rt.alloc();
        let total = cell(7);
        let total = format!(in alloc; "{total:>4}{total:04}{total:+}")?;
        assert_eq!(rt; total.as_str(), "777");
        let worst = longest(7);
        let worst = format!(in alloc; "{worst:>4}{worst:04}{worst:+}")?;
        assert_eq!(rt; worst.as_str(), "777");
        let worst_class = class(1, 7);
        let worst_class = format!(in alloc; "{worst_class:>6}{worst_class:06}{worst_class:+}")?;
        assert_eq!(rt; worst_class.as_str(), "1:71:71:7");
        let none = Widened::<Total>::Forbidden;
        let none = format!(in alloc; "{none:>12}{none:<12}")?;
        assert_eq!(rt; none.as_str(), "forbiddenforbidden");
        Ok(())
    }

    fn step(rows: u32, columns: u32, minutes: u64) -> Step<Total> {
        Step {
            sets: Sets { rows, columns },
            amount: Total { minutes },
        }
    }

    // Rows 0 5 and 4 8, with two cells in surplus, and the steps that settle them.
    #[test]
    fn settling_steps(rt: HostRuntime) {
        let size = Size::of(2).expect(&rt, "2 is a size");
        let mut cells = [
            cell(0),
            cell(5),
            cell(4),
            cell(8),
            cell(7),
            Widened::Forbidden,
        ];
        let mut table = Table {
            cells: &mut cells,
            size,
        };
        assert_eq!(rt; table.cost(&[0, 1]), cell(8));
        assert_eq!(rt; table.cost(&[1, 0]), cell(9));
        let steps = [step(2, 3, 4), step(3, 2, 4)];
        assert!(rt; table.amount_fits(step(2, 3, 4)));
        assert!(rt; !table.amount_fits(step(2, 3, 5)));
        table.apply_all(&steps);
        assert_eq!(rt; value(&steps, size), Total { minutes: 8 });
        assert_eq!(rt;
            table.first_not_absorbed(Total { minutes: 8 }, &[0, 1]),
            None
        );
        assert_eq!(rt;
            table.first_not_absorbed(Total { minutes: 8 }, &[1, 0]),
            Some(0)
        );
        let sets = Sets {
            rows: 1,
            columns: 2,
        };
        let least = Least {
            amount: cell(1),
            row: 0,
            column: 1,
        };
        assert_eq!(rt; table.least(sets), Some(least));
        let no_rows = Sets {
            rows: 0,
            columns: 2,
        };
        assert_eq!(rt; table.least(no_rows), None);
        assert_eq!(rt;
            cells,
            [
                cell(0),
                cell(1),
                cell(0),
                cell(0),
                cell(7),
                Widened::Forbidden,
            ]
        );
    }

    // A cell that is not empty can be absorbed: a lower class adds nothing to a higher one.
    #[test]
    fn absorbed_and_not_empty(rt: HostRuntime) {
        let value = Class {
            class: 2,
            minutes: 5,
        };
        assert!(rt;
            absorbs(
                value,
                Class {
                    class: 1,
                    minutes: 60,
                },
            )
        );
        assert!(rt;
            !absorbs(
                value,
                Class {
                    class: 2,
                    minutes: 1,
                },
            )
        );
    }
}
