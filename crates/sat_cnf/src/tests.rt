ghost use Rattle.std.specs.Prelude.{◌≡◌, ◌<◌, length, IfOk};

mod encoding;

use super::*;
use std::alloc::Global;
use std::test::Fail;

#[test]
fn a_literal_has_a_variable_and_a_negation(rt: HostRuntime) {
    for (lit, variable, negated, negation) in [
        (0, 0, false, 1),
        (1, 0, true, 0),
        (6, 3, false, 7),
        (4_294_967_295, 2_147_483_647, true, 4_294_967_294),
    ] {
        assert_eq!(rt; Lit(lit).variable(), variable);
        assert_eq!(rt; Lit(lit).is_negated(), negated);
        assert_eq!(rt; Lit(lit).negation(), Lit(negation));
    }
}

#[test]
fn clauses_lie_in_the_order_in_which_they_were_pushed(rt: HostRuntime) -> Result<(), Fail> {
    let mut clauses = Clauses::new(rt.alloc(), 2);
    assert_eq!(rt; clauses.len(), 0);
    clauses.push(&[Lit(0), Lit(3)])?;
    clauses.push(&[])?;
    clauses.push(&[Lit(2)])?;
    assert_eq!(rt; clauses.vars(), 2);
    assert_eq!(rt; clauses.len(), 3);
    assert_eq!(rt; clauses.clause(0), [Lit(0), Lit(3)].as_slice());
    assert_eq!(rt; clauses.clause(1), [].as_slice());
    assert_eq!(rt; clauses.clause(2), [Lit(2)].as_slice());
    Ok(())
}

/// So many clauses `(v or not v')`, where v' is the next variable.
fn chain(alloc: Global, count: u32) -> Result<Clauses, Memory>
    requires { count < 1_000_000 }
    ensures { IfOk result (λ clauses. length clauses.list ≡ count) }
{
    let mut clauses = Clauses::new(alloc, 1_000_000);
    for variable in 0..count {
        clauses.push(&[Lit(2 * variable), Lit(2 * variable + 3)])?;
    }
    Ok(clauses)
}

#[test]
fn a_hundred_thousand_clauses_are_kept(rt: HostRuntime) -> Result<(), Fail> {
    let clauses = chain(rt.alloc(), 100_000)?;
    assert_eq!(rt; clauses.len(), 100_000);
    for place in 0..100_000u32 {
        let clause = [Lit(2 * place), Lit(2 * place + 3)];
        assert_eq!(rt; clauses.clause(u64::from(place)), clause.as_slice());
    }
    Ok(())
}
