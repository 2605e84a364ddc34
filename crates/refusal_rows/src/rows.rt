//! The rows of a table, and what is told of them.
ghost use Rattle.std.specs.Prelude.{◌≡◌, ◌<◌, ◌≤◌, Bool, List, length, map, slice_set};
ghost use Rattle.refusal_rows.specs.Rows.{Row, first_error, held, row_of};

/// How many rows a table has, at most.
pub const MOST_ROWS: usize = 16;

/// What conditions are held against: a call, and the state in which it is made.
pub trait Judge<C> {
    ghost meets: { Self → C → Bool };

    /// Whether a condition holds.
    fn holds(&self, condition: C) -> bool
        ensures { result ≡ meets self.now condition };
}

/// What is told of the rows of a table: its first error, or each row that holds. A row is a condition, and the error that it makes.
pub trait Verdict<E>: Sized {
    ghost told: { List (Row E) → Self };

    /// By rows whose conditions were tested.
    fn tell(rows: &[(bool, E)]) -> Self
        requires { length rows.now ≤ 16 }
        ensures { result ≡ told rows.now };

    /// By rules, whose conditions are held against a judge.
    fn judge<C: Copy, J: Judge<C>>(judge: &J, rules: &[(C, E)]) -> Self
        requires { length rules.now ≤ 16 }
        ensures { result ≡ told (map (row_of (J.meets judge.now)) rules.now) };
}

/// The error of the first row that holds.
impl<E: Copy> Verdict<E> for Option<E> {
    ghost told = { first_error };

    fn tell(rows: &[(bool, E)]) -> Option<E> {
        'rows: for (holds, error) in rows {
            if *holds {
                return Some(*error);
            }
        }
        None
    }

    fn judge<C: Copy, J: Judge<C>>(judge: &J, rules: &[(C, E)]) -> Option<E> {
        'rules: for (condition, error) in rules {
            if judge.holds(*condition) {
                return Some(*error);
            }
        }
        None
    }
}

/// The error of each row that holds, at the row's place.
#[derive(Debug, PartialEq, Eq, Drop)]
pub struct Holding<E> {
    pub errors: [Option<E>; MOST_ROWS],
}

fn keep<E: Copy>(errors: &mut [Option<E>; MOST_ROWS], place: usize, error: E)
    requires { place < 16 }
    ensures { errors.new ≡ slice_set errors.old place (Some error) }
{
    errors[place] = Some(error);
}

/// Each row that holds.
impl<E: Copy> Verdict<E> for Holding<E> {
    ghost told = { λ rows. record { errors = held 16 rows } };

    fn tell(rows: &[(bool, E)]) -> Holding<E> {
        let mut errors = [None; MOST_ROWS];
        'rows: for (place, (holds, error)) in rows.iter().enumerate() {
            if *holds {
                errors[place] = Some(*error);
            }
        }
        Holding { errors }
    }

    fn judge<C: Copy, J: Judge<C>>(judge: &J, rules: &[(C, E)]) -> Holding<E> {
        let mut errors = [None; MOST_ROWS];
        'rules: for (place, (condition, error)) in rules.iter().enumerate() {
            if judge.holds(*condition) {
                keep(&mut errors, place, *error);
            }
        }
        Holding { errors }
    }
}
