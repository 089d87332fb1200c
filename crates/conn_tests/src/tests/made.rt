//! What a call gave, the one way or the other.

ghost use Rattle.std.specs.Prelude.{◌≡◌, Err, Ok};

use std::process::Abort;

/// What was made. A fault that has no words stops the test, and is not let go.
pub fn made<R: Abort, T, E>(rt: &R, made: Result<T, E>) -> T
    ensures { made ≡ Ok result }
{
    match made {
        Ok(made) => made,
        Err(_) => panic!(rt; "it is not made"),
    }
}

/// What a call refused with. What was made all the same stops the test, and is not let go.
pub fn refused<R: Abort, T, E>(rt: &R, made: Result<T, E>) -> E
    ensures { made ≡ Err result }
{
    match made {
        Ok(_) => panic!(rt; "it is made"),
        Err(refused) => refused,
    }
}
