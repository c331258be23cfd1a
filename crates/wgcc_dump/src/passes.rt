//! The calls of the passes, as far as a stage needs them.

use crate::code_text::{code_text, tidied_text};
use crate::error::DumpError;
use crate::kernel_text::put_kernel;
use crate::plan_text::put_plan;
use crate::program_text::put_program;
use crate::region_text::regions_text;
use crate::text::Text;
use crate::tokens_text::put_tokens;
use crate::varying_text::put_varying;
use crate::words::{Asked, Stage};
use cl_front::{compile_kernel, read_source, read_tokens};
use cl_model::Program;
use cl_prep::Defines;
use cl_token::places;
use ctx_plan::Plan;
use ctx_plan::planning::plan;
use diverge::analyse;
use kir::Kernel;
use kir_lower::lower;
use kir_simplify::simplify;
use regions::split;
use std::alloc::Global;
use wg_num::{Memory, Word};

fn plan_of(alloc: Global, program: &Program, kernel: &Kernel) -> Result<Plan, Memory> {
    let varying = analyse(alloc, program)?;
    plan(alloc, kernel, program, &varying)
}

// The kernel that the passes behind the simplifier get.
fn simple_kernel(alloc: Global, program: &Program) -> Result<Kernel, Memory> {
    let lowered = lower(alloc, program)?;
    let kernel = simplify(alloc, lowered)?;
    Ok(kernel)
}

fn kernel_text(alloc: Global, kernel: &Kernel) -> Result<String, DumpError> {
    let mut text = Text::new(alloc);
    put_kernel(&mut text, kernel);
    text.finish()
}

fn lowered_text(alloc: Global, program: &Program) -> Result<String, DumpError> {
    let kernel = lower(alloc, program)?;
    kernel_text(alloc, &kernel)
}

fn simplified_text(alloc: Global, program: &Program) -> Result<String, DumpError> {
    let kernel = simple_kernel(alloc, program)?;
    kernel_text(alloc, &kernel)
}

fn varying_text(alloc: Global, program: &Program) -> Result<String, DumpError> {
    let varying = analyse(alloc, program)?;
    let mut text = Text::new(alloc);
    put_varying(&mut text, program, &varying);
    text.finish()
}

fn split_text(alloc: Global, program: &Program) -> Result<String, DumpError> {
    let kernel = simple_kernel(alloc, program)?;
    let tree = split(alloc, &kernel)?;
    regions_text(alloc, &kernel, &tree)
}

fn plan_text(alloc: Global, program: &Program) -> Result<String, DumpError> {
    let kernel = simple_kernel(alloc, program)?;
    let plan = plan_of(alloc, program, &kernel)?;
    let mut text = Text::new(alloc);
    put_plan(&mut text, &kernel.cells, &plan);
    text.finish()
}

fn listing_of(
    alloc: Global,
    kernel: &Kernel,
    plan: &Plan,
    asked: &Asked<'_>,
) -> Result<Vec<u8>, DumpError> {
    let name = Word::new(alloc, asked.kernel.as_bytes())?;
    let text = match asked.stage {
        Stage::Tidied => tidied_text(alloc, kernel, plan, &name, asked.width)?,
        _ => code_text(alloc, kernel, plan, &name, asked.width)?,
    };
    Ok(text)
}

fn listing_text(alloc: Global, program: &Program, asked: &Asked<'_>) -> Result<Vec<u8>, DumpError> {
    let kernel = simple_kernel(alloc, program)?;
    let plan = plan_of(alloc, program, &kernel)?;
    listing_of(alloc, &kernel, &plan, asked)
}

fn program_text(alloc: Global, program: &Program) -> Result<String, DumpError> {
    let mut text = Text::new(alloc);
    put_program(&mut text, program);
    text.finish()
}

// The text of a stage behind the typed program.
fn text_of(alloc: Global, asked: &Asked<'_>, program: &Program) -> Result<Vec<u8>, DumpError> {
    let text = match asked.stage {
        Stage::Tokens | Stage::Program => program_text(alloc, program)?,
        Stage::Kernel => lowered_text(alloc, program)?,
        Stage::Simplified => simplified_text(alloc, program)?,
        Stage::Varying => varying_text(alloc, program)?,
        Stage::Regions => split_text(alloc, program)?,
        Stage::Plan => plan_text(alloc, program)?,
        Stage::Code | Stage::Tidied => return listing_text(alloc, program, asked),
    };
    Ok(text.into_bytes())
}

fn tokens_text(alloc: Global, bytes: &[u8], defines: &Defines) -> Result<Vec<u8>, DumpError> {
    let tokens = read_tokens(alloc, bytes, defines)?;
    let places = places(alloc, bytes, &tokens)?;
    let mut text = Text::new(alloc);
    put_tokens(&mut text, &tokens, &places);
    Ok(text.finish()?.into_bytes())
}

fn program_of(
    alloc: Global,
    asked: &Asked<'_>,
    bytes: &[u8],
    defines: &Defines,
) -> Result<Program, DumpError> {
    let source = read_source(alloc, bytes, defines)?;
    let program = compile_kernel(alloc, &source, asked.kernel.as_bytes())?;
    Ok(program)
}

/// The text of the stage that is asked for, of a source with these bytes.
pub(crate) fn stage_text(
    alloc: Global,
    asked: &Asked<'_>,
    bytes: &[u8],
) -> Result<Vec<u8>, DumpError> {
    let defines = Defines {
        list: Vec::new(alloc),
    };
    if let Stage::Tokens = asked.stage {
        return tokens_text(alloc, bytes, &defines);
    }
    let program = program_of(alloc, asked, bytes, &defines)?;
    text_of(alloc, asked, &program)
}
