//! Machines that are lent: where a function has a machine as its own, its proof goes through all that a machine holds
//! wherever the function may end.

/// What is done with a value, which is let go then.
pub fn lend<V: Drop, T, F: FnOnce(&mut V) -> T>(mut value: V, act: F) -> T
    requires { F.IsAlwaysCallable act }
{
    act(&mut value)
}

/// What is done with two values, which are let go then.
pub fn lend_both<V: Drop, W: Drop, T, F: FnOnce(&mut V, &mut W) -> T>(
    mut one: V,
    mut other: W,
    act: F,
) -> T
    requires { F.IsAlwaysCallable act }
{
    act(&mut one, &mut other)
}
