//! A tree written as text.
ghost use Rattle.std.specs.Prelude.{◌≡◌, [], ◌∷◌, ◌++◌, IfOk, OnOk};
ghost use Rattle.std.specs.Fmt.{signed_decimal};
ghost use Rattle.lvm_text.specs.declared.token.Token.TheVariants.{Text};
ghost use Rattle.lvm_text.specs.Faults.{Spells};
ghost use Rattle.lvm_text.specs.Tokens.{escaped, token_bytes};
ghost use Rattle.lvm_text.specs.Tree.{items_in};
ghost use Rattle.lvm_text.specs.Written.{Fit, item_bytes, item_lines, more_bytes, scalar_bytes, scalars_bytes, tree_bytes, value_bytes};

use crate::tree::{Item, Scalar, Tree, Value};
use disk_base::Name;
use std::alloc::{AllocError, Global};

#[tactic(auto, unfolding(crate::specs::Tokens::escaped), using(std::proofs::Common::append_assoc))]
fn put_byte(out: &mut Vec<u8>, b: u8) -> Result<(), AllocError>
    ensures { OnOk result (out.new.items ≡ out.old.items ++ escaped (b ∷ [])) }
{
    if b == b'"' || b == b'\\' {
        out.push(b'\\')?;
        out.push(b)?;
        return Ok(());
    }
    out.push(b)?;
    Ok(())
}

fn put_text(out: &mut Vec<u8>, text: &[u8]) -> Result<(), AllocError>
    ensures { OnOk result (out.new.items ≡ out.old.items ++ token_bytes (Text text.now)) }
{
    out.push(b'"')?;
    for b in text {
        put_byte(out, *b)?;
    }
    out.push(b'"')?;
    Ok(())
}

fn put_number(alloc: Global, out: &mut Vec<u8>, n: i64) -> Result<(), AllocError>
    ensures { OnOk result (out.new.items ≡ out.old.items ++ signed_decimal n) }
{
    let text = format!(in alloc; "{n}")?;
    out.extend_from_slice(text.as_bytes())?;
    Ok(())
}

fn put_scalar(alloc: Global, out: &mut Vec<u8>, scalar: &Scalar) -> Result<(), AllocError>
    ensures { OnOk result (out.new.items ≡ out.old.items ++ scalar_bytes scalar.now) }
{
    match scalar {
        Scalar::Number(n) => put_number(alloc, out, *n),
        Scalar::Text(text) => put_text(out, text.bytes()),
    }
}

fn put_more(alloc: Global, out: &mut Vec<u8>, scalars: &[Scalar]) -> Result<(), AllocError>
    ensures { OnOk result (out.new.items ≡ out.old.items ++ more_bytes scalars.now) }
{
    for scalar in scalars {
        out.extend_from_slice(b", ")?;
        put_scalar(alloc, out, scalar)?;
    }
    Ok(())
}

fn put_scalars(alloc: Global, out: &mut Vec<u8>, scalars: &[Scalar]) -> Result<(), AllocError>
    ensures { OnOk result (out.new.items ≡ out.old.items ++ scalars_bytes scalars.now) }
{
    match scalars {
        [] => Ok(()),
        [first, more @ ..] => {
            put_scalar(alloc, out, first)?;
            put_more(alloc, out, more)
        }
    }
}

fn put_value(alloc: Global, out: &mut Vec<u8>, value: &Value) -> Result<(), AllocError>
    ensures { OnOk result (out.new.items ≡ out.old.items ++ value_bytes value.now) }
{
    match value {
        Value::Number(n) => put_number(alloc, out, *n),
        Value::Text(text) => put_text(out, text.bytes()),
        Value::Many(scalars) => {
            out.push(b'[')?;
            put_scalars(alloc, out, scalars.items())?;
            out.push(b']')?;
            Ok(())
        }
    }
}

#[cycle(put)]
fn put_item(alloc: Global, out: &mut Vec<u8>, item: &Item) -> Result<(), AllocError>
    ensures { OnOk result (out.new.items ≡ out.old.items ++ item_bytes item.now) }
{
    match item {
        Item::Section(name, tree) => {
            out.extend_from_slice(name.bytes())?;
            out.extend_from_slice(b" {\n")?;
            put_items(alloc, out, tree.items())?;
            out.extend_from_slice(b"}\n")?;
        }
        Item::Value(name, value) => {
            out.extend_from_slice(name.bytes())?;
            out.extend_from_slice(b" = ")?;
            put_value(alloc, out, value)?;
            out.extend_from_slice(b"\n")?;
        }
    }
    Ok(())
}

#[cycle(put)]
fn put_items(alloc: Global, out: &mut Vec<u8>, items: &[Item]) -> Result<(), AllocError>
    ensures { OnOk result (out.new.items ≡ out.old.items ++ item_lines items.now) }
{
    for item in items {
        put_item(alloc, out, item)?;
    }
    Ok(())
}

/// The text of the tree. It spells the tree, so that `read_text` gives it again.
pub fn write_text(alloc: Global, tree: &Tree) -> Result<Name, AllocError>
    requires { Fit 8 (items_in tree.now) }
    ensures text { IfOk result (λ text. text ≡ tree_bytes tree.now) }
    ensures spells { IfOk result (λ text. Spells text tree.now) }
{
    let mut out = Vec::new(alloc);
    put_items(alloc, &mut out, tree.items())?;
    Ok(Name::from_vec(out))
}
