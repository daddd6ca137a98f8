//! A value kept while something else is done that may fail.

ghost use Rattle.std.specs.Prelude.{◌≡◌, Ok, Err, MatchResult};

/// The value with what else there is; or why there is nothing else, and then the value is let go of here.
pub fn both<A: Drop, B, E>(kept: A, other: Result<B, E>) -> Result<(A, B), E>
    ensures { MatchResult other (λ b. result ≡ Ok (kept, b)) (λ e. result ≡ Err e) }
{
    match other {
        Ok(other) => Ok((kept, other)),
        Err(error) => Err(error),
    }
}
