ghost use Rattle.std.specs.Prelude.{◌≡◌, ◌≤◌};
ghost use Rattle.of_memory.specs.Regions.{region_of, size_of, is_heap, is_writable, may_write, place_of, longest, span};
ghost use Rattle.of_memory.specs.Regions.{image_limit, image_start, property_limit};
ghost use Rattle.of_memory.specs.Growth.{aligned};

/// How far apart the regions begin.
pub(crate) const SPAN: u32 = 0x10_0000;

/// How many bytes are kept for each region: no region is longer.
pub(crate) const LONGEST: u32 = 0x4_0000;

/// How many bytes are kept for all six.
pub(crate) const BYTES: usize = 0x18_0000;

/// Where the data region begins.
pub(crate) const DATA_START: u32 = 0x10_0000;

/// Where the data region ends.
pub(crate) const DATA_LIMIT: u32 = 0x14_0000;

/// Where the property region begins: the cell `state`.
pub(crate) const PROPERTY_START: u32 = 0x20_0000;

/// Where names and values of properties begin.
pub(crate) const FIRST_PROPERTY: u32 = 0x20_0010;

/// Where the property region ends.
pub(crate) const PROPERTY_LIMIT: u32 = 0x22_0000;

/// Where the instance region begins.
pub(crate) const INSTANCE_START: u32 = 0x30_0000;

/// Where the instance region ends.
pub(crate) const INSTANCE_LIMIT: u32 = 0x32_0000;

/// Where the heap begins.
pub(crate) const HEAP_START: u32 = 0x40_0000;

/// Where the heap ends.
pub(crate) const HEAP_LIMIT: u32 = 0x44_0000;

/// The last byte of the cell `base`, with which the scratch region begins.
pub(crate) const BASE_LOW: u32 = 0x50_0003;

/// Where the image region begins.
pub(crate) const IMAGE_START: u32 = 0x60_0000;

/// Where the image region ends.
pub(crate) const IMAGE_LIMIT: u32 = 0x64_0000;

/// A region of the data space.
#[derive(Clone, Copy)]
pub(crate) enum Region {
    /// From 0x100000: what programs allot at `here`.
    Data,

    /// From 0x200000: the cell `state`, and names and values of properties from 0x200010 on.
    Properties,

    /// From 0x300000: the blocks of instances.
    Instances,

    /// From 0x400000: the blocks that programs take.
    Heap,

    /// From 0x500000: the cells `base` and `fcode-debug?`, pictured text and interpreted strings.
    Scratch,

    /// From 0x600000: the images that run, one after another.
    Image,
}

impl Region {
    /// The region in whose span the address lies.
    #[inline]
    pub(crate) fn of(addr: u32) -> Option<Region>
        ensures { result ≡ region_of addr }
    {
        match addr / SPAN {
            1 => Some(Region::Data),
            2 => Some(Region::Properties),
            3 => Some(Region::Instances),
            4 => Some(Region::Heap),
            5 => Some(Region::Scratch),
            6 => Some(Region::Image),
            _ => None,
        }
    }

    /// How many bytes the region has.
    #[inline]
    pub(crate) fn size(self) -> u32
        ensures value { result ≡ size_of self }
        ensures bound { result ≤ longest }
    {
        match self {
            Region::Data => 0x4_0000,
            Region::Properties => 0x2_0000,
            Region::Instances => 0x2_0000,
            Region::Heap => 0x4_0000,
            Region::Scratch => 0x1000,
            Region::Image => 0x4_0000,
        }
    }

    /// Whether only live blocks can be read or written.
    #[inline]
    pub(crate) fn is_heap(self) -> bool
        ensures { result ≡ is_heap self }
    {
        match self {
            Region::Data => false,
            Region::Properties => false,
            Region::Instances => false,
            Region::Heap => true,
            Region::Scratch => false,
            Region::Image => false,
        }
    }

    /// Whether programs may write.
    #[inline]
    pub(crate) fn is_writable(self) -> bool
        ensures { result ≡ is_writable self }
    {
        match self {
            Region::Data => true,
            Region::Properties => false,
            Region::Instances => true,
            Region::Heap => true,
            Region::Scratch => true,
            Region::Image => false,
        }
    }
}

/// Whether programs may write at the address, if it lies in a region.
#[inline]
pub(crate) fn may_write(addr: u32) -> bool
    ensures { result ≡ may_write (region_of addr) }
{
    match Region::of(addr) {
        Some(region) => region.is_writable(),
        None => false,
    }
}

/// Where the byte of an address stands among the bytes of all regions.
#[inline]
pub(crate) fn place(addr: u32) -> usize
    requires { span ≤ addr }
    ensures { result ≡ place_of addr }
{
    (addr / SPAN - 1) as usize * LONGEST as usize + (addr % SPAN) as usize
}

/// The same of an address of the image region.
#[inline]
pub(crate) fn image_place(addr: u32) -> usize
    requires from { image_start ≤ addr }
    requires to { addr ≤ image_limit }
    ensures { result ≡ place_of addr }
{
    (addr - IMAGE_START) as usize + place(IMAGE_START)
}

/// The address, up to a multiple of 4.
pub(crate) fn aligned(addr: u32) -> u32
    requires { addr ≤ property_limit }
    ensures { result ≡ aligned addr }
{
    (addr + 3) / 4 * 4
}
