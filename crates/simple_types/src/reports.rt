//! Assertions and reports (IEEE 1076, 10.3 and 10.4).
ghost use Rattle.std.specs.Prelude.{◌≡◌, IfOk};
ghost use Rattle.elab_meaning.specs.Parts.{judged};
ghost use Rattle.unit_meaning.specs.Sequential as spec;
ghost use Rattle.expr_types.specs.Known.{Finds, IsSoundScope};

use ams_token::Names;
use ams_tree::{Assertion, Literal, LiteralValue, Name, Report};
use ams_value::ValueType;
use elab_meaning::{Notes, Part};
use expr_types::text_of;
use flat_expr::{FlatExpr, Severity, Statement};
use name_scope::{Kind, Scope};
use sqlite_items::Items;
use statement_parts::{RUNNING, Setting, both, must_be};
use std::alloc::{AllocError, Global};

fn severity_of(text: &str) -> Part<Severity>
    ensures { result ≡ spec.severity_of text.now }
{
    if text == "note" {
        Part::Kept(Severity::Note)
    } else if text == "warning" {
        Part::Kept(Severity::Warning)
    } else if text == "error" {
        Part::Kept(Severity::Error)
    } else if text == "failure" {
        Part::Kept(Severity::Failure)
    } else {
        Part::Wrong
    }
}

fn severity_or(names: &Names, default: Severity, written: &Option<Name>) -> Part<Severity>
    ensures { result ≡ spec.severity_or names.now default written.now }
{
    match written {
        None => Part::Kept(default),
        Some(name) => severity_of(text_of(names, name.number)),
    }
}

fn content_text(names: &Names, content: LiteralValue) -> &str
    ensures { result.now ≡ spec.content_text names.now content }
{
    match content {
        LiteralValue::Str(number) => text_of(names, number),
        _ => "",
    }
}

fn text_or<'a>(names: &'a Names, text: &Option<Literal>) -> &'a str
    ensures { result.now ≡ spec.text_or names.now text.now }
{
    match text {
        Some(literal) => content_text(names, literal.value),
        None => "Assertion violation.",
    }
}

/// The text of an assertion's report.
pub fn assertion_text(
    alloc: Global,
    setting: &Setting<'_>,
    text: &Option<Literal>,
) -> Result<Items<u8>, AllocError>
    ensures { IfOk result (λ bytes. bytes ≡ spec.text_or setting.now.texts text.now) }
{
    Items::from_slice(alloc, text_or(setting.names(), text).as_bytes())
}

/// The condition of an assertion and its severity.
pub fn assertion_parts(
    alloc: Global,
    setting: &Setting<'_>,
    scope: &Scope,
    assertion: &Assertion,
    notes: &mut Notes,
) -> Result<Part<(FlatExpr, Severity)>, AllocError>
    requires { IsSoundScope scope.now }
    ensures { Finds (spec.assertion_parts setting.now scope.now assertion.now notes.old) result notes.new }
{
    let kind = Kind::Of(ValueType::Boolean);
    let condition = must_be(
        alloc,
        setting,
        scope,
        RUNNING,
        kind,
        &assertion.condition,
        notes,
    )?;
    let severity = severity_or(setting.names(), Severity::Error, &assertion.severity);
    Ok(both(condition, severity))
}

fn asserted(text: Items<u8>, parts: Part<(FlatExpr, Severity)>) -> Part<Statement>
    ensures { result ≡ judged (spec.asserted text) parts }
{
    match parts {
        Part::Kept((condition, severity)) => {
            Part::Kept(Statement::Assert(condition, text, severity))
        }
        Part::Wrong => Part::Wrong,
        Part::Hidden => Part::Hidden,
    }
}

pub fn assertion(
    alloc: Global,
    setting: &Setting<'_>,
    scope: &Scope,
    assertion: &Assertion,
    notes: &mut Notes,
) -> Result<Part<Statement>, AllocError>
    requires { IsSoundScope scope.now }
    ensures { Finds (spec.assertion setting.now scope.now assertion.now notes.old) result notes.new }
{
    let text = assertion_text(alloc, setting, &assertion.text)?;
    let parts = assertion_parts(alloc, setting, scope, assertion, notes)?;
    Ok(asserted(text, parts))
}

fn reported(text: Items<u8>, severity: Part<Severity>) -> Part<Statement>
    ensures { result ≡ judged (spec.reported text) severity }
{
    match severity {
        Part::Kept(severity) => Part::Kept(Statement::Report(text, severity)),
        Part::Wrong => Part::Wrong,
        Part::Hidden => Part::Hidden,
    }
}

pub fn report(
    alloc: Global,
    setting: &Setting<'_>,
    report: &Report,
) -> Result<Part<Statement>, AllocError>
    ensures { IfOk result (λ made. made ≡ spec.report setting.now report.now) }
{
    let names = setting.names();
    let severity = severity_or(names, Severity::Note, &report.severity);
    let text = Items::from_slice(alloc, content_text(names, report.text.value).as_bytes())?;
    Ok(reported(text, severity))
}
