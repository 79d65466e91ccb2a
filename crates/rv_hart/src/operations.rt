//! Operations that access memory, each as a type, so that a function can be compiled for one of them alone.
use rv_isa::op::Op;

/// An operation. Nothing is claimed of it: whoever tries one tests the word by its row.
pub trait Operation {
    fn op() -> Op;
}

pub struct Lb;

impl Operation for Lb {
    #[inline(always)]
    fn op() -> Op {
        Op::Lb
    }
}

pub struct Lh;

impl Operation for Lh {
    #[inline(always)]
    fn op() -> Op {
        Op::Lh
    }
}

pub struct Lw;

impl Operation for Lw {
    #[inline(always)]
    fn op() -> Op {
        Op::Lw
    }
}

pub struct Lbu;

impl Operation for Lbu {
    #[inline(always)]
    fn op() -> Op {
        Op::Lbu
    }
}

pub struct Lhu;

impl Operation for Lhu {
    #[inline(always)]
    fn op() -> Op {
        Op::Lhu
    }
}

pub struct Sb;

impl Operation for Sb {
    #[inline(always)]
    fn op() -> Op {
        Op::Sb
    }
}

pub struct Sh;

impl Operation for Sh {
    #[inline(always)]
    fn op() -> Op {
        Op::Sh
    }
}

pub struct Sw;

impl Operation for Sw {
    #[inline(always)]
    fn op() -> Op {
        Op::Sw
    }
}

pub struct AmoswapW;

impl Operation for AmoswapW {
    #[inline(always)]
    fn op() -> Op {
        Op::AmoswapW
    }
}

pub struct AmoaddW;

impl Operation for AmoaddW {
    #[inline(always)]
    fn op() -> Op {
        Op::AmoaddW
    }
}

pub struct AmoxorW;

impl Operation for AmoxorW {
    #[inline(always)]
    fn op() -> Op {
        Op::AmoxorW
    }
}

pub struct AmoandW;

impl Operation for AmoandW {
    #[inline(always)]
    fn op() -> Op {
        Op::AmoandW
    }
}

pub struct AmoorW;

impl Operation for AmoorW {
    #[inline(always)]
    fn op() -> Op {
        Op::AmoorW
    }
}

pub struct AmominW;

impl Operation for AmominW {
    #[inline(always)]
    fn op() -> Op {
        Op::AmominW
    }
}

pub struct AmomaxW;

impl Operation for AmomaxW {
    #[inline(always)]
    fn op() -> Op {
        Op::AmomaxW
    }
}

pub struct AmominuW;

impl Operation for AmominuW {
    #[inline(always)]
    fn op() -> Op {
        Op::AmominuW
    }
}

pub struct AmomaxuW;

impl Operation for AmomaxuW {
    #[inline(always)]
    fn op() -> Op {
        Op::AmomaxuW
    }
}
