//! What the tests of all crates check with.
#![tactic(auto)]

ghost use Rattle.std.specs.Prelude.{◌↔◌, IsTrue, IsOk, All};

use std::test::Fail;

/// Fails a test if this is not so.
pub fn check(is_so: bool, what: &str) -> Result<(), Fail>
    ensures { IsOk result ↔ IsTrue is_so }
{
    if is_so { Ok(()) } else { Err(Fail::new(what)) }
}

/// Fails a test if this is not so at one of several rows, calls or cases, by its number.
pub fn check_at(number: usize, is_so: bool, what: &str) -> Result<(), Fail>
    ensures { IsOk result ↔ IsTrue is_so }
{
    if is_so {
        Ok(())
    } else {
        Err(Fail::new(format_args!("{what} {number}")))
    }
}

/// Fails a test if one of these is not so: the first of them.
pub fn check_all(rows: &[(bool, &str)]) -> Result<(), Fail>
    ensures { IsOk result ↔ All (λ row. IsTrue row.0) rows.now }
{
    for (is_so, what) in rows {
        check(*is_so, what)?;
    }
    Ok(())
}
