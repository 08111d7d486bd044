//! What the actions make of what was read: lists, patterns and forms.

ghost use Rattle.std.specs.Prelude.{◌≡◌, ◌+◌, ◌<◌, ◌^◌, List, [], ◌∷◌, ◌++◌, length, slice_get, All, IfOk, OnOk};
ghost use Rattle.rz_syntax.specs.Building.{leaf_form, join_form, add_argument, add_face, add_pattern, add_untyped, bind_each, add_binds, add_typed, add_restricted, pair_pattern, join_two, equal_at, first_part, second_part, apply_to, apply, bracketed, pair, refl_at, refl_typed, induction, cases, restrict, arrow, nest, wrap, arrows, sigma, lambda};

use crate::action::{Join, Leaf};
use crate::builder::{Builder, Operand};
use crate::forms::{Bind, Form, Pat, Raw, RawFace, Shape};
use rz_rules::{Items, OutOfMemory, Values};
use std::alloc::Global;

pub fn leaf_form(leaf: Leaf) -> Form
    ensures { result ≡ leaf_form leaf }
{
    match leaf {
        Leaf::Universe => Form::Universe,
        Leaf::CubeSort => Form::CubeSort,
        Leaf::TopeSort => Form::TopeSort,
        Leaf::CubeOne => Form::CubeOne,
        Leaf::CubeTwo => Form::CubeTwo,
        Leaf::Star => Form::Star,
        Leaf::EndZero => Form::EndZero,
        Leaf::EndOne => Form::EndOne,
        Leaf::Top => Form::Top,
        Leaf::Bottom => Form::Bottom,
        Leaf::UnitType => Form::UnitType,
        Leaf::UnitTerm => Form::UnitTerm,
        Leaf::RecBot => Form::RecBot,
        Leaf::Refl => Form::Refl,
    }
}

fn join_form(join: Join, left: Raw, right: Raw) -> Form
    ensures { result ≡ join_form join left right }
{
    match join {
        Join::And => Form::And { left, right },
        Join::Or => Form::Or { left, right },
        Join::SamePoint => Form::SamePoint { left, right },
        Join::AtMost => Form::AtMost { left, right },
        Join::Equal => Form::Equal { left, right },
        Join::Product => Form::Product { left, right },
        Join::As => Form::As {
            term: left,
            of: right,
        },
    }
}

// Adds a binder for each pattern.
fn bind_each(
    list: &mut Values<Bind>,
    patterns: &[Pat],
    of: Option<Raw>,
    tope: Option<Raw>,
) -> Result<(), OutOfMemory>
    ensures { OnOk result (list.new ≡ list.old ++ bind_each patterns.now of tope) }
{
    for pat in patterns {
        list.push(Bind {
            pat: *pat,
            of,
            tope,
        })?;
    }
    Ok(())
}

// Puts a function type into the table, with a binder.
fn put_arrow(forms: &mut Items<Form>, bind: Bind, body: Raw, at: u64) -> Result<Raw, OutOfMemory>
    ensures form { IfOk result (λ raw. raw.form ≡ length forms.old) }
    ensures at { IfOk result (λ raw. raw.at ≡ at) }
    ensures added { OnOk result (forms.new ≡ forms.old ++ Form.Arrow bind body ∷ []) }
{
    let form = forms.len();
    forms.push(Form::Arrow { bind, body })?;
    Ok(Raw { form, at })
}

// Function types around a body, each at its binder's pattern.
fn nest(forms: &mut Items<Form>, binds: &[Bind], body: Raw) -> Result<Raw, OutOfMemory>
    ensures forms { OnOk result (forms.new ≡ (nest forms.old binds.now body).0) }
    ensures outermost { IfOk result (λ raw. raw ≡ (nest forms.old binds.now body).1) }
{
    let mut body = body;
    for count in 0..binds.len() {
        let bind = binds[binds.len() - 1 - count];
        body = put_arrow(forms, bind, body, bind.pat.at)?;
    }
    Ok(body)
}

// The same, but the outermost stands at a place.
fn wrap(forms: &mut Items<Form>, at: u64, binds: &[Bind], body: Raw) -> Result<Raw, OutOfMemory>
    ensures forms { OnOk result (forms.new ≡ (wrap forms.old at binds.now body).0) }
    ensures outermost { IfOk result (λ raw. raw ≡ (wrap forms.old at binds.now body).1) }
{
    match binds {
        [] => Ok(body),
        [first, others @ ..] => {
            let body = nest(forms, others, body)?;
            put_arrow(forms, *first, body, at)
        }
    }
}

// Lists that are being read.
impl Builder {
    pub fn add_argument(&mut self, alloc: Global) -> Result<(), OutOfMemory>
        ensures { OnOk result (self.new ≡ add_argument self.old) }
    {
        let operand = self.take_operand();
        let mut list = self.take_arguments(alloc);
        list.push(operand.raw)?;
        self.put_arguments(list)
    }

    pub fn add_face(&mut self, alloc: Global) -> Result<(), OutOfMemory>
        ensures { OnOk result (self.new ≡ add_face self.old) }
    {
        let term = self.take_operand().raw;
        let tope = self.take_operand().raw;
        let mut list = self.take_faces(alloc);
        list.push(RawFace { tope, term })?;
        self.put_faces(list)
    }

    pub fn add_pattern(&mut self, alloc: Global) -> Result<(), OutOfMemory>
        ensures { OnOk result (self.new ≡ add_pattern self.old) }
    {
        let pattern = self.take_pattern();
        let mut list = self.take_group(alloc);
        list.push(pattern)?;
        self.put_group(list)
    }

    pub fn add_untyped(&mut self, alloc: Global) -> Result<(), OutOfMemory>
        ensures { OnOk result (self.new ≡ add_untyped self.old) }
    {
        let pat = self.take_pattern();
        let mut list = self.take_binds(alloc);
        list.push(Bind {
            pat,
            of: None,
            tope: None,
        })?;
        self.put_binds(list)
    }

    pub fn add_binds(
        &mut self,
        alloc: Global,
        of: Option<Raw>,
        tope: Option<Raw>,
    ) -> Result<(), OutOfMemory>
        ensures { OnOk result (self.new ≡ add_binds self.old of tope) }
    {
        let group = self.take_group(alloc);
        let mut list = self.take_binds(alloc);
        bind_each(&mut list, group.as_slice(), of, tope)?;
        self.put_binds(list)
    }

    pub fn add_typed(&mut self, alloc: Global) -> Result<(), OutOfMemory>
        ensures { OnOk result (self.new ≡ add_typed self.old) }
    {
        let of = self.take_operand().raw;
        self.add_binds(alloc, Some(of), None)
    }

    pub fn add_restricted(&mut self, alloc: Global) -> Result<(), OutOfMemory>
        ensures { OnOk result (self.new ≡ add_restricted self.old) }
    {
        let tope = self.take_operand().raw;
        let of = self.take_operand().raw;
        self.add_binds(alloc, Some(of), Some(tope))
    }

    pub fn pair_pattern(&mut self) -> Result<(), OutOfMemory>
        ensures { OnOk result (self.new ≡ pair_pattern self.old) }
    {
        let place = self.take_place();
        let right = self.take_pattern();
        let left = self.take_pattern();
        self.put_pattern(place, Shape::Pair { left, right })
    }
}

// Forms.
impl Builder {
    pub fn join_two(&mut self, join: Join) -> Result<(), OutOfMemory>
        ensures { OnOk result (self.new ≡ join_two self.old join) }
    {
        let right = self.take_operand();
        let left = self.take_operand();
        self.put(left.start, left.start, join_form(join, left.raw, right.raw))
    }

    pub fn equal_at(&mut self) -> Result<(), OutOfMemory>
        ensures { OnOk result (self.new ≡ equal_at self.old) }
    {
        let right = self.take_operand().raw;
        let of = self.take_operand().raw;
        let left = self.take_operand();
        let form = Form::EqualAt {
            of,
            left: left.raw,
            right,
        };
        self.put(left.start, left.start, form)
    }

    pub fn first_part(&mut self) -> Result<(), OutOfMemory>
        ensures { OnOk result (self.new ≡ first_part self.old) }
    {
        let place = self.take_place();
        let arg = self.take_operand().raw;
        self.put(place, place, Form::First { arg })
    }

    pub fn second_part(&mut self) -> Result<(), OutOfMemory>
        ensures { OnOk result (self.new ≡ second_part self.old) }
    {
        let place = self.take_place();
        let arg = self.take_operand().raw;
        self.put(place, place, Form::Second { arg })
    }

    pub fn apply_to(&mut self, head: Operand, args: Values<Raw>) -> Result<(), OutOfMemory>
        ensures { OnOk result (self.new ≡ apply_to self.old head args) }
    {
        if args.len() == 0 {
            return self.put_operand(head.start, head.raw);
        }
        let form = Form::App {
            head: head.raw,
            args,
        };
        self.put(head.start, head.start, form)
    }

    pub fn apply(&mut self, alloc: Global) -> Result<(), OutOfMemory>
        ensures { OnOk result (self.new ≡ apply self.old) }
    {
        let args = self.take_arguments(alloc);
        let head = self.take_operand();
        self.apply_to(head, args)
    }

    pub fn bracketed(&mut self) -> Result<(), OutOfMemory>
        ensures { OnOk result (self.new ≡ bracketed self.old) }
    {
        let place = self.take_place();
        let raw = self.take_operand().raw;
        self.put_operand(place, raw)
    }

    pub fn pair(&mut self) -> Result<(), OutOfMemory>
        ensures { OnOk result (self.new ≡ pair self.old) }
    {
        let place = self.take_place();
        let right = self.take_operand().raw;
        let left = self.take_operand().raw;
        self.put(place, place, Form::Pair { left, right })
    }

    pub fn refl_at(&mut self) -> Result<(), OutOfMemory>
        ensures { OnOk result (self.new ≡ refl_at self.old) }
    {
        let place = self.take_place();
        let term = self.take_operand().raw;
        self.put(place, place, Form::ReflAt { term, of: None })
    }

    pub fn refl_typed(&mut self) -> Result<(), OutOfMemory>
        ensures { OnOk result (self.new ≡ refl_typed self.old) }
    {
        let place = self.take_place();
        let of = self.take_operand().raw;
        let term = self.take_operand().raw;
        let form = Form::ReflAt { term, of: Some(of) };
        self.put(place, place, form)
    }

    pub fn induction(&mut self, alloc: Global) -> Result<(), OutOfMemory>
        ensures { OnOk result (self.new ≡ induction self.old) }
    {
        let place = self.take_place();
        let parts = self.take_arguments(alloc);
        self.put(place, place, Form::IdJ { parts })
    }

    pub fn cases(&mut self, alloc: Global) -> Result<(), OutOfMemory>
        ensures { OnOk result (self.new ≡ cases self.old) }
    {
        let place = self.take_place();
        let faces = self.take_faces(alloc);
        self.put(place, place, Form::RecOr { faces })
    }

    pub fn restrict(&mut self, alloc: Global) -> Result<(), OutOfMemory>
        ensures { OnOk result (self.new ≡ restrict self.old) }
    {
        let faces = self.take_faces(alloc);
        let body = self.take_operand();
        let form = Form::Restrict {
            body: body.raw,
            faces,
        };
        self.put(body.start, body.start, form)
    }

    pub fn arrow(&mut self) -> Result<(), OutOfMemory>
        ensures { OnOk result (self.new ≡ arrow self.old) }
    {
        let body = self.take_operand().raw;
        let domain = self.take_operand();
        let shape = self.shapes.len();
        self.shapes.push(Shape::Blank)?;
        let pat = Pat {
            shape,
            at: domain.raw.at,
        };
        let bind = Bind {
            pat,
            of: Some(domain.raw),
            tope: None,
        };
        self.put(domain.start, domain.start, Form::Arrow { bind, body })
    }

    pub fn arrows(&mut self, alloc: Global) -> Result<(), OutOfMemory>
        ensures { OnOk result (self.new ≡ arrows self.old) }
    {
        let place = self.take_place();
        let body = self.take_operand().raw;
        let binds = self.take_binds(alloc);
        let raw = wrap(&mut self.forms, place, binds.as_slice(), body)?;
        self.put_operand(place, raw)
    }

    pub fn sigma(&mut self) -> Result<(), OutOfMemory>
        ensures { OnOk result (self.new ≡ sigma self.old) }
    {
        let place = self.take_place();
        let body = self.take_operand().raw;
        let of = self.take_operand().raw;
        let pat = self.take_pattern();
        let bind = Bind {
            pat,
            of: Some(of),
            tope: None,
        };
        self.put(place, place, Form::Sigma { bind, body })
    }

    pub fn lambda(&mut self, alloc: Global) -> Result<(), OutOfMemory>
        ensures { OnOk result (self.new ≡ lambda self.old) }
    {
        let place = self.take_place();
        let body = self.take_operand().raw;
        let binds = self.take_binds(alloc);
        self.put(place, place, Form::Lambda { binds, body })
    }
}
