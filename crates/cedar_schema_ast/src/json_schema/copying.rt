//! Copies of types.

ghost use Rattle.std.specs.Prelude.{IfOk};
ghost use Rattle.cedar_schema_ast.specs.Words.{IsRecordCopy, IsTypeCopy, IsVariantCopy, LocatesAlike, RefersAlike, ShowsSame, type_expr, type_locs};

use crate::json_schema::fragment_name::FragmentName;
use crate::json_schema::type_of::{RecordType, Type, TypeOfAttribute, TypeVariant};
use cedar_ast::{M, put};
use std::collections::BTreeMap;
use std::default::Emptied;

/// An equal type with the same locations.
#[cycle(copying)]
fn copy_type<N: FragmentName + Drop>(ty: &Type<N>) -> M<Type<N>>
    ensures { IfOk result (IsTypeCopy N N.is_alike ty.now) }
{
    match ty {
        Type::Plain { ty, loc } => {
            let ty = copy_variant(ty)?;
            Ok(Type::Plain { ty, loc: *loc })
        }
        Type::CommonTypeRef { type_name, loc } => {
            let type_name = type_name.copied()?;
            Ok(Type::CommonTypeRef {
                type_name,
                loc: *loc,
            })
        }
    }
}

/// An equal type variant with the same locations.
#[cycle(copying)]
fn copy_variant<N: FragmentName + Drop>(ty: &TypeVariant<N>) -> M<TypeVariant<N>>
    ensures { IfOk result (IsVariantCopy N N.is_alike ty.now) }
{
    match ty {
        TypeVariant::String => Ok(TypeVariant::String),
        TypeVariant::Long => Ok(TypeVariant::Long),
        TypeVariant::Boolean => Ok(TypeVariant::Boolean),
        TypeVariant::Set { element } => {
            let copy = copy_type(element)?;
            let element = Box::new(*Box::allocator(element), copy)?;
            Ok(TypeVariant::Set { element })
        }
        TypeVariant::Record(record_type) => Ok(TypeVariant::Record(copy_record(record_type)?)),
        TypeVariant::Entity { name } => {
            let name = name.copied()?;
            Ok(TypeVariant::Entity { name })
        }
        TypeVariant::EntityOrCommon { type_name } => {
            let type_name = type_name.copied()?;
            Ok(TypeVariant::EntityOrCommon { type_name })
        }
        TypeVariant::Extension { name } => {
            let name = name.clone()?;
            Ok(TypeVariant::Extension { name })
        }
    }
}

/// An equal record type with the same locations.
#[cycle(copying)]
fn copy_record<N: FragmentName + Drop>(record_type: &RecordType<N>) -> M<RecordType<N>>
    ensures { IfOk result (IsRecordCopy N N.is_alike record_type.now) }
{
    let mut attributes = BTreeMap::emptied(&record_type.attributes)?;
    for (name, attribute) in &record_type.attributes {
        let copy = TypeOfAttribute {
            ty: copy_type(&attribute.ty)?,
            required: attribute.required,
            loc: attribute.loc,
        };
        put(&mut attributes, name.clone()?, copy)?;
    }
    Ok(RecordType {
        attributes,
        additional_attributes: record_type.additional_attributes,
    })
}

impl<N: FragmentName + Drop> Type<N> {
    /// An equal type with the same locations. Out of memory is the only refusal.
    pub fn clone(&self) -> M<Self>
        ensures written { IfOk result (ShowsSame (RefersAlike N N.is_alike)
            (type_expr N) self.now) }
        ensures locs { IfOk result (ShowsSame (LocatesAlike N N.is_alike) (type_locs N) self.now) }
    {
        copy_type(self)
    }
}
