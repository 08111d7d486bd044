use rz_rules::{Limit, Name, Refusal, Verdict};
use std::test::Fail;

#[test]
fn verdicts_are_copied(rt: HostRuntime) -> Result<(), Fail> {
    let name = Name::from_text(rt.alloc(), "f")?;
    let verdicts = [
        Verdict::Accepted {
            claim: Some(5),
            shown: name.copy()?,
        },
        Verdict::Refused {
            why: Refusal::Duplicate(name),
            at: 1,
        },
        Verdict::Refused {
            why: Refusal::Clash(3, 4),
            at: 2,
        },
        Verdict::Refused {
            why: Refusal::Limit(Limit::Depth),
            at: 0,
        },
    ];
    for verdict in &verdicts {
        assert_eq!(rt; &verdict.copy()?, verdict);
    }
    Ok(())
}
