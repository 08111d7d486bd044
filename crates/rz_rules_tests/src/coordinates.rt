use rz_rules::{Coord, Coords, Name, Ranks};
use std::test::Fail;

#[test]
fn ranks_are_a_list(rt: HostRuntime) -> Result<(), Fail> {
    let part = Coord::Of {
        variable: 3,
        path: Name::from_text(rt.alloc(), "lr")?,
    };
    let mut ranks = Ranks::new(rt.alloc());
    ranks.push((part.copy()?, 2))?;
    let mut coordinates = Coords::new(rt.alloc());
    coordinates.push(Coord::Zero)?;
    coordinates.push(Coord::One)?;
    coordinates.push(part)?;
    let copies = (coordinates.copy()?, ranks.copy()?);
    assert_eq!(rt; copies.0.len(), 3);
    assert_eq!(rt; copies.0.as_slice(), coordinates.as_slice());
    assert_eq!(rt; copies.1.as_slice(), ranks.as_slice());
    Ok(())
}
