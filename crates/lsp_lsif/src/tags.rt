// What a range stands for.
ghost use Rattle.lsp_lsif.specs.Tags.{range_tag_row, definition_tag_row, declaration_tag_row, reference_tag_row, unknown_tag_row};

use lsp_base::Range;
use lsp_kinds::SymbolKind;
use lsp_shape::{
    Misfit, NoMemory, Optional, Required, TruthOrFalse, Wanted, Wire, Writer, form, put_tag,
    read_object, tag,
};
use serde_json::Value;
use std::alloc::Global;

/// What the text in the range of a `range` vertex is. In JSON, the member `type` gives the variant
/// (LSIF 0.6).
#[derive(Debug, PartialEq, Drop)]
pub enum RangeTag {
    /// The name of a symbol, where it is defined.
    Definition(DefinitionTag),
    /// The name of a symbol, where it is declared.
    Declaration(DeclarationTag),
    /// The name of a symbol, where it is used.
    Reference(ReferenceTag),
    /// Text whose role the tool doesn't know.
    Unknown(UnknownTag),
}

#[tactic(auto, unfolding(crate::specs::Tags::range_tag_row, crate::specs::Tags::definition_tag_row, crate::specs::Tags::declaration_tag_row, crate::specs::Tags::reference_tag_row, crate::specs::Tags::unknown_tag_row))]
impl Wire for RangeTag {
    ghost shape = { range_tag_row.shape };

    ghost shown = { range_tag_row.shown };

    fn from_value(alloc: Global, value: &Value) -> Result<RangeTag, Misfit> {
        match tag(value, "type") {
            Some("definition") => form(alloc, value).map(RangeTag::Definition),
            Some("declaration") => form(alloc, value).map(RangeTag::Declaration),
            Some("reference") => form(alloc, value).map(RangeTag::Reference),
            Some("unknown") => form(alloc, value).map(RangeTag::Unknown),
            _ => Err(Misfit::wanted(Wanted::Form)),
        }
    }

    fn to_value(&self, alloc: Global) -> Result<Value, NoMemory> {
        match self {
            RangeTag::Definition(definition) => put_tag(alloc, "type", "definition", definition),
            RangeTag::Declaration(declaration) => put_tag(
                alloc,
                "type",
                "declaration",
                declaration,
            ),
            RangeTag::Reference(reference) => put_tag(alloc, "type", "reference", reference),
            RangeTag::Unknown(unknown) => put_tag(alloc, "type", "unknown", unknown),
        }
    }
}

/// The tag of a range that holds the name of a symbol where it is defined (LSIF 0.6).
#[derive(Debug, PartialEq, Drop)]
pub struct DefinitionTag {
    /// The text in the range.
    text: String,
    /// The kind of the symbol.
    kind: SymbolKind,
    /// Whether the symbol is deprecated. Absent: it isn't. `false` isn't written.
    deprecated: bool,
    /// The range of the whole definition with its comments, but without whitespace around it. It
    /// contains the range that has the tag.
    full_range: Range,
    /// More about the symbol, such as its signature.
    detail: Option<String>,
}

#[tactic(auto, unfolding(crate::specs::Tags::definition_tag_row))]
impl Wire for DefinitionTag {
    ghost shape = { definition_tag_row.shape };

    ghost shown = { definition_tag_row.shown };

    fn from_value(alloc: Global, value: &Value) -> Result<DefinitionTag, Misfit> {
        let (text, kind, deprecated, full_range, detail) = read_object(
            alloc,
            value,
            (
                Required("text"),
                Required("kind"),
                TruthOrFalse("deprecated"),
                Required("fullRange"),
                Optional("detail"),
            ),
        )?;
        Ok(DefinitionTag {
            text,
            kind,
            deprecated,
            full_range,
            detail,
        })
    }

    fn to_value(&self, alloc: Global) -> Result<Value, NoMemory> {
        let mut object = Writer::new(alloc);
        object.field("text", &self.text);
        object.field("kind", &self.kind);
        object.unless_false("deprecated", self.deprecated);
        object.field("fullRange", &self.full_range);
        object.optional("detail", &self.detail);
        object.end()
    }
}

/// The tag of a range that holds the name of a symbol where it is declared (LSIF 0.6).
#[derive(Debug, PartialEq, Drop)]
pub struct DeclarationTag {
    /// The text in the range.
    text: String,
    /// The kind of the symbol.
    kind: SymbolKind,
    /// Whether the symbol is deprecated. Absent: it isn't. `false` is written too.
    deprecated: bool,
    /// The range of the whole declaration with its comments, but without whitespace around it. It
    /// contains the range that has the tag.
    full_range: Range,
    /// More about the symbol, such as its signature.
    detail: Option<String>,
}

#[tactic(auto, unfolding(crate::specs::Tags::declaration_tag_row))]
impl Wire for DeclarationTag {
    ghost shape = { declaration_tag_row.shape };

    ghost shown = { declaration_tag_row.shown };

    fn from_value(alloc: Global, value: &Value) -> Result<DeclarationTag, Misfit> {
        let (text, kind, deprecated, full_range, detail) = read_object(
            alloc,
            value,
            (
                Required("text"),
                Required("kind"),
                TruthOrFalse("deprecated"),
                Required("fullRange"),
                Optional("detail"),
            ),
        )?;
        Ok(DeclarationTag {
            text,
            kind,
            deprecated,
            full_range,
            detail,
        })
    }

    fn to_value(&self, alloc: Global) -> Result<Value, NoMemory> {
        let mut object = Writer::new(alloc);
        object.field("text", &self.text);
        object.field("kind", &self.kind);
        object.field("deprecated", &self.deprecated);
        object.field("fullRange", &self.full_range);
        object.optional("detail", &self.detail);
        object.end()
    }
}

/// The tag of a range in which a symbol is used (LSIF 0.6).
#[derive(Debug, PartialEq, Drop)]
pub struct ReferenceTag {
    /// The text in the range.
    text: String,
}

#[tactic(auto, unfolding(crate::specs::Tags::reference_tag_row))]
impl Wire for ReferenceTag {
    ghost shape = { reference_tag_row.shape };

    ghost shown = { reference_tag_row.shown };

    fn from_value(alloc: Global, value: &Value) -> Result<ReferenceTag, Misfit> {
        let text = read_object(alloc, value, Required("text"))?;
        Ok(ReferenceTag { text })
    }

    fn to_value(&self, alloc: Global) -> Result<Value, NoMemory> {
        let mut object = Writer::new(alloc);
        object.field("text", &self.text);
        object.end()
    }
}

/// The tag of a range whose role the tool doesn't know (LSIF 0.6).
#[derive(Debug, PartialEq, Drop)]
pub struct UnknownTag {
    /// The text in the range.
    text: String,
}

#[tactic(auto, unfolding(crate::specs::Tags::unknown_tag_row))]
impl Wire for UnknownTag {
    ghost shape = { unknown_tag_row.shape };

    ghost shown = { unknown_tag_row.shown };

    fn from_value(alloc: Global, value: &Value) -> Result<UnknownTag, Misfit> {
        let text = read_object(alloc, value, Required("text"))?;
        Ok(UnknownTag { text })
    }

    fn to_value(&self, alloc: Global) -> Result<Value, NoMemory> {
        let mut object = Writer::new(alloc);
        object.field("text", &self.text);
        object.end()
    }
}
