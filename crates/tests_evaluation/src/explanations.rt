//! Says of known tests why the model of Power forbids them, or shows an execution that it keeps, or
//! both, and why small models do that check in other ways; and draws executions of four, one under
//! a model that shows relations of its own, and one in which a reason begins at an initial store
//! that nothing reads.

mod texts;

use cat_syntax::read_model;
use from_scratch::fixtures::POWER;
use litmus_ppc::read_test;
use std::alloc::{AllocError, Global};
use std::io;
use why_forbidden::{Asked, DrawRequest, Format, Wanted, draw, why};

/// The most drawings of a test.
const MOST: u64 = 2;

/// Reasons are told where no execution is kept.
const PLAIN: Asked = Asked {
    is_forbidden: false,
    is_deep: false,
};

/// Reasons are told also where an execution is kept.
const FORBIDDEN: Asked = Asked {
    is_forbidden: true,
    is_deep: false,
};

/// What carries a step is told one level deeper.
const DEEP: Asked = Asked {
    is_forbidden: false,
    is_deep: true,
};

fn text_of(alloc: Global, asked: Asked, model: &[u8], test: &[u8]) -> Result<String, AllocError> {
    let Ok(model) = read_model(alloc, model) else {
        return String::from_str(alloc, "no model\n");
    };
    let Ok(test) = read_test(alloc, test) else {
        return String::from_str(alloc, "no test\n");
    };
    match String::from_utf8(why(alloc, asked, &test, &model)?) {
        Ok(text) => Ok(text),
        Err(_) => String::from_str(alloc, "no text\n"),
    }
}

fn drawing_of(
    alloc: Global,
    model: &[u8],
    test: &[u8],
    wanted: Wanted,
) -> Result<String, AllocError> {
    let Ok(model) = read_model(alloc, model) else {
        return String::from_str(alloc, "no model\n");
    };
    let Ok(test) = read_test(alloc, test) else {
        return String::from_str(alloc, "no test\n");
    };
    let request = DrawRequest {
        wanted,
        skipped: 0,
        most: MOST,
        format: Format::Dot,
    };
    match String::from_utf8(draw(alloc, &test, &model, request)?) {
        Ok(text) => Ok(text),
        Err(_) => String::from_str(alloc, "no text\n"),
    }
}

fn show_drawing<R: Print + AllocGlobal>(
    rt: &R,
    model: &[u8],
    test: &[u8],
    wanted: Wanted,
) -> io::Result<()> {
    rt.print(drawing_of(rt.alloc(), model, test, wanted)?)
}

fn show<R: Print + AllocGlobal>(rt: &R, asked: Asked, test: &[u8]) -> io::Result<()> {
    rt.print(text_of(rt.alloc(), asked, POWER, test)?)
}

fn show_under<R: Print + AllocGlobal>(rt: &R, model: &[u8], test: &[u8]) -> io::Result<()> {
    rt.print(text_of(rt.alloc(), PLAIN, model, test)?)
}

/// Prints each answer.
pub fn show_all<R: Print + AllocGlobal>(rt: &R) -> io::Result<()> {
    show(rt, PLAIN, texts::MP_LWSYNC_ADDR)?;
    show(rt, PLAIN, texts::IRIW_SYNCS)?;
    show(rt, PLAIN, texts::LB_DATAS)?;
    show(rt, PLAIN, texts::TWO_TWO_W_LWSYNCS)?;
    show(rt, PLAIN, texts::COWR)?;
    show(rt, PLAIN, texts::MP)?;
    show(rt, PLAIN, texts::MP_EITHER)?;
    show(rt, FORBIDDEN, texts::MP_EITHER)?;
    show(rt, DEEP, texts::MP_LWSYNC_ADDR)?;
    show(rt, DEEP, texts::LB_DATAS)?;
    for model in texts::SMALL {
        show_under(rt, model, texts::COWR)?;
    }
    show_drawing(rt, POWER, texts::MP, Wanted::Shown)?;
    show_drawing(rt, POWER, texts::MP_LWSYNC_ADDR, Wanted::Forbidden)?;
    show_drawing(rt, POWER, texts::LB_DATAS, Wanted::Forbidden)?;
    show_drawing(rt, POWER, texts::COWR, Wanted::All)?;
    show_drawing(rt, texts::SHOWING, texts::MP_LWSYNC_ADDR, Wanted::Shown)?;
    show_drawing(rt, texts::ONCE, texts::STORE, Wanted::Forbidden)
}
