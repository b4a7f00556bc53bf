//! A function signature, with a flag that is true if it is plain (each region of its parameters occurs only once).

use crate::plain::is_plain;
use cyc_types::Signature;
use std::marker::Model;

/// A function signature, as tables store it. Contracts see only the signature, not its memory layout.
#[derive(Drop)]
pub(crate) struct Routine {
    signature: Signature,
    is_plain: bool,
}

impl Model for Routine {
    ghost use Rattle.std.specs.Prelude.{IsTrue};
    ghost use Rattle.std.specs.Coded.{codes};
    ghost use Rattle.cyc_types.specs.TypedTrees.{Signature as SignatureValue};
    ghost use Rattle.cyc_types.specs.inside.SignatureView.{view_signature};
    ghost use Rattle.cyc_scope.specs.inside.Codes.{ty_code};
    ghost use Rattle.cyc_scope.specs.inside.Plain.{IsPlain};

    ghost Value = { SignatureValue };

    ghost coded = { Prim.hlevel (codes, ty_code) };

    ghost view = { λ r. view_signature r.signature };

    ghost invariant = { λ r. IsTrue r.is_plain → IsPlain (view_signature r.signature) };
}

impl Routine {
    ghost use Rattle.std.specs.Prelude.{◌≡◌, IsTrue};
    ghost use Rattle.cyc_types.specs.inside.SignatureView.{view_signature};
    ghost use Rattle.cyc_scope.specs.inside.Plain.{IsPlain};

    pub(crate) fn new(signature: Signature) -> Routine
        ensures { result ≡ view_signature signature }
    {
        let is_plain = is_plain(&signature);
        Routine {
            signature,
            is_plain,
        }
    }

    pub(crate) fn signature(&self) -> &Signature
        ensures { view_signature result.now ≡ self.now }
    {
        &self.signature
    }

    pub(crate) fn is_plain(&self) -> bool
        ensures { IsTrue result → IsPlain self.now }
    {
        self.is_plain
    }
}
