//! The tag of a byte is that of the part of its object in which it lies.
ghost use Rattle.store_monotone.specs.Tags.TypeTags.{TagsAreOfTypes};
ghost use Rattle.store_monotone.specs.Tags.PartTags.{ElementsHaveTheirTags, MembersHaveTheirTags};

/// The tag of a byte by the leaves of its object's type is the one by the elements and members in which it lies, where
/// the members of structs stand apart, under a data model.
pub fn tags_are_of_types()
    ensures { TagsAreOfTypes }
{}

/// So the bytes of an element have the tags of its type, and those of a member too, where structs stand in no circle.
pub fn parts_have_their_tags()
    ensures elements { ElementsHaveTheirTags }
    ensures members { MembersHaveTheirTags }
{}
