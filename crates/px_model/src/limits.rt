//! The limits of a scene (docs/SCENES.md, "Limits").

/// A picture is at most so many pixels wide, and so many high.
pub const MAX_PICTURE_SIZE: u32 = 512;

/// A wide picture, which is drawn in tiles, is at most so many pixels wide, and so many high (docs/PICTURE.md, "Tiles").
pub const MAX_WIDE_PICTURE_SIZE: u32 = 4096;

/// A depth and its fraction have at most so many bits together.
pub const MAX_DEPTH_BITS: u32 = 24;

/// A depth's fraction has at most so many bits.
pub const MAX_FRACTION_BITS: u32 = 8;

/// `a` and `b` of a plane are at most so much in size.
pub const MAX_SLOPE: u32 = 8_388_608;

/// `c` of a plane is at most so much in size.
pub const MAX_CONSTANT: u64 = 8_589_934_592;

/// A scene has at most so many solids.
pub const MAX_SOLIDS: u32 = 255;

/// A solid has at most so many fronts, so many backs and so many sides.
pub const MAX_PLANES_OF_A_KIND: u32 = 32;

/// The greatest face number that a scene may have.
pub const MAX_FACES: u32 = 4095;

/// A sample has at most so many blocks (docs/SCENES.md, "The sample").
pub const MAX_BLOCKS: u32 = 200;
