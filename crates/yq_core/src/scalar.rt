//! Scalars: a kind and a text.
ghost use Rattle.std.specs.Prelude.{◌≡◌, ◌↔◌, IfOk, IsTrue, string_bytes};
ghost use Rattle.yq_core.specs.Scalar.{IsScalar};
ghost use Rattle.yq_core.specs.Scalar as spec;

use crate::kind::Kind;
use crate::schema::resolve;
use arrayvec::ArrayString;
use std::alloc::{AllocError, Global};
use std::marker::Model;

/// A kind and a text: one of few bytes is in the value itself.
#[derive(Debug, Drop)]
enum ScalarData {
    Short(Kind, ArrayString<16>),
    Long(Kind, String),
}

/// A scalar. A kind other than [`Kind::Text`] is what the core schema gives of the text, and the
/// text of null is `null` (YAML 1.2.2, section 10.3.2).
#[derive(Debug, Drop)]
pub struct Scalar {
    data: ScalarData,
}

impl Model for Scalar {
    ghost use Rattle.yq_core.specs.Scalar.{ScalarText, IsScalar};

    ghost Value = { ScalarText };

    ghost use Rattle.yq_core.specs.ScalarData.{data_text};

    ghost view = { λ s. data_text s.data };

    ghost invariant = { λ s. IsScalar (data_text s.data).kind (data_text s.data).text };
}

impl Scalar {
    /// The scalar of a kind and a text that go together.
    pub fn new(alloc: Global, kind: Kind, text: &str) -> Result<Self, AllocError>
        requires { IsScalar kind text.now }
        ensures kind { IfOk result (λ s. s.kind ≡ kind) }
        ensures text { IfOk result (λ s. s.text ≡ text.now) }
    {
        if let Ok(short) = ArrayString::from(text) {
            return Ok(Scalar {
                data: ScalarData::Short(kind, short),
            });
        }
        let text = String::from_str(alloc, text)?;
        Ok(Scalar::of_kind(kind, text))
    }

    /// The scalar that a plain text means.
    pub fn plain(alloc: Global, text: &str) -> Result<Self, AllocError>
        ensures { IfOk result (λ s. s ≡ spec.plain_of text.now) }
    {
        match resolve(text) {
            Kind::Null => Scalar::null(alloc),
            kind => Scalar::new(alloc, kind, text),
        }
    }

    /// The same of a text that the scalar takes.
    pub fn from_plain(alloc: Global, text: String) -> Result<Self, AllocError>
        ensures { IfOk result (λ s. s ≡ spec.plain_of (string_bytes text)) }
    {
        match resolve(text.as_str()) {
            Kind::Null => Scalar::null(alloc),
            kind => Ok(Scalar::of_kind(kind, text)),
        }
    }

    /// The scalar of a kind and a text that go together, which it takes.
    pub fn of_kind(kind: Kind, text: String) -> Self
        requires { IsScalar kind (string_bytes text) }
        ensures kind { result.kind ≡ kind }
        ensures text { result.text ≡ string_bytes text }
    {
        Scalar {
            data: ScalarData::Long(kind, text),
        }
    }

    /// A string of that text.
    pub fn string(text: String) -> Self
        ensures { result ≡ spec.string_of (string_bytes text) }
    {
        Scalar {
            data: ScalarData::Long(Kind::Text, text),
        }
    }

    /// Null.
    pub fn null(alloc: Global) -> Result<Self, AllocError>
        ensures { IfOk result (λ s. s ≡ spec.null) }
    {
        Scalar::new(alloc, Kind::Null, "null")
    }

    /// The kind.
    pub fn kind(&self) -> Kind
        ensures value { result ≡ self.now.kind }
        ensures kept { IsScalar self.now.kind self.now.text }
    {
        match self.data {
            ScalarData::Short(kind, _) | ScalarData::Long(kind, _) => kind,
        }
    }

    /// The text.
    pub fn text(&self) -> &str
        ensures { result.now ≡ self.now.text }
    {
        match &self.data {
            ScalarData::Short(_, text) => text.as_str(),
            ScalarData::Long(_, text) => text.as_str(),
        }
    }

    /// The text, of a scalar that is wanted no more.
    pub fn into_text(self, alloc: Global) -> Result<String, AllocError>
        ensures { IfOk result (λ t. string_bytes t ≡ self.text) }
    {
        let Scalar { data } = self;
        match data {
            ScalarData::Short(_, text) => String::from_str(alloc, text.as_str()),
            ScalarData::Long(_, text) => Ok(text),
        }
    }

    /// Whether the two have the same kind and the same text.
    pub fn same(&self, other: &Scalar) -> bool
        ensures { IsTrue result ↔ (self.now ≡ other.now) }
    {
        self.kind() == other.kind() && self.text() == other.text()
    }

    /// The same scalar again.
    pub fn copy(&self, alloc: Global) -> Result<Self, AllocError>
        ensures { IfOk result (λ s. s ≡ self.now) }
    {
        Scalar::new(alloc, self.kind(), self.text())
    }
}
