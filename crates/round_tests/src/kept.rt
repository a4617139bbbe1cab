//! A type that can't be dropped, as the last element of tuples.

ghost use Rattle.std.specs.Prelude.{◌≡◌};

use std::alloc::Global;
use std::test::Fail;
use yaml_shape::{Data, Typed};
use yaml_types::{BuildFault, Composed, Deserialize, FromParts, Tuple};

/// A ticket, which is handed in and never lost.
pub struct Ticket {
    /// Its number.
    pub number: u64,
}

impl Composed for Ticket {
    type Parts = u64;

    ghost parts = { λ ticket. ticket.number };
}

impl<'de> FromParts<'de> for Ticket {
    ghost made = { λ number ticket. number ≡ ticket.number };

    fn from_parts(_alloc: Global, number: u64) -> Result<Ticket, BuildFault> {
        Ok(Ticket { number })
    }
}

// The value of two elements, a letter and a number.
fn read<'de, T: Deserialize<'de>>(alloc: Global, letter: char, number: u128) -> Result<T, Fail> {
    let (schema, id) = T::schema(alloc)?;
    let found = Data::Tuple(vec![in alloc; Data::Char(letter), Data::Unsigned(number)]?);
    if Typed::new(&schema, id, &found).is_none() {
        return Err("of another shape")?;
    }
    Ok(T::build(alloc, found)?)
}

// Takes the ticket.
fn handed_in(ticket: Ticket) -> u64 {
    let Ticket { number } = ticket;
    number
}

// A pair with a ticket behind it, which is handed in.
fn pair(alloc: Global) -> Result<(char, u64), Fail> {
    let (letter, ticket) = read::<(char, Ticket)>(alloc, 'a', 7)?;
    Ok((letter, handed_in(ticket)))
}

// A row with a ticket at its end, which is handed in.
fn row(alloc: Global) -> Result<(char, u64), Fail> {
    let row = read::<Tuple<(char, (Ticket,))>>(alloc, 'b', 10)?;
    let Tuple {
        elements: (letter, (ticket,)),
    } = row;
    Ok((letter, handed_in(ticket)))
}

#[test]
fn what_cannot_be_dropped_ends_a_tuple(rt: HostRuntime) -> Result<(), Fail> {
    assert_eq!(rt; pair(rt.alloc())?, ('a', 7));
    assert_eq!(rt; row(rt.alloc())?, ('b', 10));
    Ok(())
}
