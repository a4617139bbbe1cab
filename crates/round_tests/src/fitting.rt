//! Which data and which values fit, and that those come back.

use serde_yaml::Limits;
use std::test::Fail;
use yaml_round::again::fits_and_comes_back;
use yaml_round::renderer::Quoted;
use yaml_round::{fits, value_fits};
use yaml_shape::Typed;
use yaml_types::Serialize;

// An absent optional in a present one is written as null, and so is the absent one of both.
#[test]
fn optionals_of_optionals_fit_as_data(rt: HostRuntime) -> Result<(), Fail> {
    let (schema, id) = <Option<Option<i64>> as Serialize>::schema(rt.alloc())?;
    for (value, wanted) in [(None, true), (Some(None), false), (Some(Some(3i64)), true)] {
        let content = value.to_data(rt.alloc())?;
        match Typed::new(&schema, id, &content) {
            Some(typed) => assert!(rt; fits(&typed, Limits::DEFAULT) == wanted),
            None => return Err("of another shape")?,
        }
    }
    Ok(())
}

#[test]
fn values_within_the_nestings_fit_and_come_back(rt: HostRuntime) -> Result<(), Fail> {
    let alloc = rt.alloc();
    let lists = vec![in alloc; vec![in alloc; Some(1i64), None]?]?;
    for (nesting, wanted) in [(1, false), (2, true)] {
        let Some(limits) = Limits::new(nesting, 100) else {
            return Err("too many follows")?;
        };
        assert!(rt; value_fits(alloc, &lists, limits)? == wanted, "{nesting}");
        let back = fits_and_comes_back(alloc, &lists, &mut Quoted, limits)?;
        assert!(rt; back == wanted, "{nesting}");
    }
    Ok(())
}
