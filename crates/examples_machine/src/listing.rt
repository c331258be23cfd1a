//! The listing of small programs, by the format of the text.

use cl_model::{Query, Root, Space, VarKind};
use lane_code::{Bank, Code, Counts, GroupProgram, Node, Reg, Step, listing};
use std::test::Fail;
use wg_num::{Bin, IntType, Place, Width, Word};

const MASK: Reg = Reg {
    bank: Bank::Mask,
    number: 0,
};

const NARROW: Reg = Reg {
    bank: Bank::Narrow,
    number: 0,
};

const WIDE: Reg = Reg {
    bank: Bank::Wide,
    number: 0,
};

#[test]
fn a_listing_names_each_step_and_field(rt: HostRuntime) -> Result<(), Fail> {
    let steps = vec![in rt.alloc();
        Step::Const {
            to: NARROW,
            of: IntType::Uint,
            value: 0
        },
        Step::Ask {
            what: Query::GlobalId,
            to: WIDE,
            dim: NARROW,
            mask: MASK
        },
        Step::Load {
            site: 0,
            of: IntType::Int,
            root: Root::Param(0),
            index: WIDE,
            to: NARROW,
            mask: MASK
        },
        Step::Binary {
            op: Bin::Add,
            of: IntType::Int,
            to: NARROW,
            a: NARROW,
            b: NARROW,
            mask: MASK
        },
        Step::Store {
            site: 0,
            of: IntType::Int,
            root: Root::Param(0),
            index: WIDE,
            from: NARROW,
            mask: MASK
        },
    ]?;
    let counts = Counts {
        narrow: 1,
        wide: 1,
        masks: 1,
        scalars: 0,
    };
    let program = GroupProgram {
        kernel: Word::new(rt.alloc(), b"inc")?,
        width: Width::W4,
        params: vec![in rt.alloc();
            VarKind::Pointer {
                space: Space::Global,
                element: IntType::Int,
                root: Root::Param(0)
            },
        ]?,
        tables: Vec::new(rt.alloc()),
        locals: Vec::new(rt.alloc()),
        privates: Vec::new(rt.alloc()),
        columns: 0,
        slots: 0,
        sites: vec![in rt.alloc(); Place { line: 1, column: 2 }]?,
        top: Node::Items(Code { steps, counts }),
    };
    let text = listing(rt.alloc(), &program)?;
    let wanted =
        b"kernel inc, width 4\nitems\n  0 Const to=v0 of=Uint value=0\n  1 Ask what=GlobalId to=w0 dim=v0 mask=m0\n  2 Load site=0 of=Int root=Param 0 index=w0 to=v0 mask=m0\n  3 Binary op=Add of=Int to=v0 a=v0 b=v0 mask=m0\n  4 Store site=0 of=Int root=Param 0 index=w0 from=v0 mask=m0\n";
    assert_eq!(rt; text.as_slice(), wanted.as_slice());
    Ok(())
}
