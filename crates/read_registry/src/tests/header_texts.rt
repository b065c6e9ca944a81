//! Registries, and their headers at some choices.

/// Part of a registry of window systems.
pub(super) const WINDOWS: &[u8] = b"\
    <?xml version=\"1.0\"?>\n\
    <registry>\n\
    <tags><tag name=\"KHR\" author=\"Khronos\"/></tags>\n\
    <types>\n\
    <type name=\"vk_platform\" category=\"include\">#include \"vk_platform.h\"</type>\n\
    <type requires=\"vk_platform\" name=\"void\"/>\n\
    <type requires=\"vk_platform\" name=\"uint32_t\"/>\n\
    <type category=\"define\">#define <name>VK_DEFINE_HANDLE</name>(object) typedef struct object##_T* object;</type>\n\
    <type category=\"define\">#define <name>VK_DEFINE_NON_DISPATCHABLE_HANDLE</name>(object) typedef struct object##_T *object;</type>\n\
    <type category=\"basetype\">typedef <type>uint32_t</type> <name>VkFlags</name>;</type>\n\
    <type name=\"VkResult\" category=\"enum\"/>\n\
    <type name=\"VkStructureType\" category=\"enum\"/>\n\
    <type name=\"VkPresentModeKHR\" category=\"enum\"/>\n\
    <type name=\"VkSwapchainCreateFlagBitsKHR\" category=\"enum\"/>\n\
    <type requires=\"VkSwapchainCreateFlagBitsKHR\" category=\"bitmask\">typedef <type>VkFlags</type> <name>VkSwapchainCreateFlagsKHR</name>;</type>\n\
    <type category=\"handle\"><type>VK_DEFINE_HANDLE</type>(<name>VkDevice</name>)</type>\n\
    <type category=\"handle\"><type>VK_DEFINE_NON_DISPATCHABLE_HANDLE</type>(<name>VkSurfaceKHR</name>)</type>\n\
    <type category=\"handle\"><type>VK_DEFINE_NON_DISPATCHABLE_HANDLE</type>(<name>VkSwapchainKHR</name>)</type>\n\
    <type category=\"struct\" name=\"VkSwapchainCreateInfoKHR\">\n\
    <member values=\"VK_STRUCTURE_TYPE_SWAPCHAIN_CREATE_INFO_KHR\"><type>VkStructureType</type> <name>sType</name></member>\n\
    <member optional=\"true\">const <type>void</type>*   <name>pNext</name></member>\n\
    <member optional=\"true\"><type>VkSwapchainCreateFlagsKHR</type> <name>flags</name></member>\n\
    <member><type>VkSurfaceKHR</type> <name>surface</name></member>\n\
    <member><type>VkPresentModeKHR</type> <name>presentMode</name></member>\n\
    </type>\n\
    </types>\n\
    <enums name=\"VkResult\" type=\"enum\">\n\
    <enum value=\"0\" name=\"VK_SUCCESS\"/><enum value=\"5\" name=\"VK_INCOMPLETE\"/>\n\
    </enums>\n\
    <enums name=\"VkPresentModeKHR\" type=\"enum\">\n\
    <enum value=\"0\" name=\"VK_PRESENT_MODE_IMMEDIATE_KHR\"/><enum value=\"2\" name=\"VK_PRESENT_MODE_FIFO_KHR\"/>\n\
    </enums>\n\
    <enums name=\"VkSwapchainCreateFlagBitsKHR\" type=\"bitmask\">\n\
    <enum bitpos=\"0\" name=\"VK_SWAPCHAIN_CREATE_SAMPLE_BIT_KHR\"/>\n\
    </enums>\n\
    <commands>\n\
    <command><proto><type>VkResult</type> <name>vkCreateSwapchainKHR</name></proto>\n\
    <param><type>VkDevice</type> <name>device</name></param>\n\
    <param>const <type>VkSwapchainCreateInfoKHR</type>* <name>pCreateInfo</name></param>\n\
    <param><type>VkSwapchainKHR</type>* <name>pSwapchain</name></param></command>\n\
    </commands>\n\
    <feature api=\"vulkan\" name=\"VK_VERSION_1_0\" number=\"1.0\"><require>\n\
    <type name=\"vk_platform\"/><type name=\"VkDevice\"/><type name=\"VkResult\"/></require></feature>\n\
    <extensions>\n\
    <extension name=\"VK_KHR_surface\" number=\"1\" supported=\"vulkan\"><require>\n\
    <enum value=\"25\" name=\"VK_KHR_SURFACE_SPEC_VERSION\"/>\n\
    <enum value=\"&quot;VK_KHR_surface&quot;\" name=\"VK_KHR_SURFACE_EXTENSION_NAME\"/>\n\
    <enum offset=\"0\" extends=\"VkResult\" dir=\"-\" name=\"VK_ERROR_SURFACE_LOST_KHR\"/>\n\
    <type name=\"VkSurfaceKHR\"/><type name=\"VkPresentModeKHR\"/></require></extension>\n\
    <extension name=\"VK_KHR_swapchain\" number=\"2\" depends=\"VK_KHR_surface\" supported=\"vulkan\"><require>\n\
    <enum offset=\"0\" extends=\"VkStructureType\" name=\"VK_STRUCTURE_TYPE_SWAPCHAIN_CREATE_INFO_KHR\"/>\n\
    <enum offset=\"3\" extends=\"VkResult\" name=\"VK_SUBOPTIMAL_KHR\"/>\n\
    <command name=\"vkCreateSwapchainKHR\"/></require></extension>\n\
    </extensions>\n\
    </registry>\n";

/// Its header at choice 7.
pub(super) const WINDOWS_7: &[u8] = b"\
    #ifndef VULKAN_CORE_H_\n\
    #define VULKAN_CORE_H_ 1\n\
    #define VK_VERSION_1_0 1\n\
    #define VK_KHR_surface 1\n\
    #define VK_KHR_swapchain 1\n\
    #include \"vk_platform.h\"\n\
    #define VK_DEFINE_HANDLE(object) typedef struct object##_T* object;\n\
    #define VK_DEFINE_NON_DISPATCHABLE_HANDLE(object) typedef struct object##_T *object;\n\
    typedef uint32_t VkFlags;\n\
    typedef enum VkResult {\n\
    \x20\x20\x20\x20VK_SUCCESS = 0,\n\
    \x20\x20\x20\x20VK_INCOMPLETE = 5,\n\
    \x20\x20\x20\x20VK_ERROR_SURFACE_LOST_KHR = -1000000000,\n\
    \x20\x20\x20\x20VK_SUBOPTIMAL_KHR = 1000001003,\n\
    \x20\x20\x20\x20VK_RESULT_MAX_ENUM = 0x7FFFFFFF\n\
    } VkResult;\n\
    typedef enum VkStructureType {\n\
    \x20\x20\x20\x20VK_STRUCTURE_TYPE_SWAPCHAIN_CREATE_INFO_KHR = 1000001000,\n\
    \x20\x20\x20\x20VK_STRUCTURE_TYPE_MAX_ENUM = 0x7FFFFFFF\n\
    } VkStructureType;\n\
    typedef enum VkPresentModeKHR {\n\
    \x20\x20\x20\x20VK_PRESENT_MODE_IMMEDIATE_KHR = 0,\n\
    \x20\x20\x20\x20VK_PRESENT_MODE_FIFO_KHR = 2,\n\
    \x20\x20\x20\x20VK_PRESENT_MODE_MAX_ENUM_KHR = 0x7FFFFFFF\n\
    } VkPresentModeKHR;\n\
    typedef enum VkSwapchainCreateFlagBitsKHR {\n\
    \x20\x20\x20\x20VK_SWAPCHAIN_CREATE_SAMPLE_BIT_KHR = 0x00000001,\n\
    \x20\x20\x20\x20VK_SWAPCHAIN_CREATE_FLAG_BITS_MAX_ENUM_KHR = 0x7FFFFFFF\n\
    } VkSwapchainCreateFlagBitsKHR;\n\
    typedef VkFlags VkSwapchainCreateFlagsKHR;\n\
    VK_DEFINE_HANDLE(VkDevice)\n\
    VK_DEFINE_NON_DISPATCHABLE_HANDLE(VkSurfaceKHR)\n\
    VK_DEFINE_NON_DISPATCHABLE_HANDLE(VkSwapchainKHR)\n\
    typedef struct VkSwapchainCreateInfoKHR {\n\
    \x20\x20\x20\x20VkStructureType sType;\n\
    \x20\x20\x20\x20const void* pNext;\n\
    \x20\x20\x20\x20VkSwapchainCreateFlagsKHR flags;\n\
    \x20\x20\x20\x20VkSurfaceKHR surface;\n\
    \x20\x20\x20\x20VkPresentModeKHR presentMode;\n\
    } VkSwapchainCreateInfoKHR;\n\
    #define VK_KHR_SURFACE_SPEC_VERSION 25\n\
    #define VK_KHR_SURFACE_EXTENSION_NAME \"VK_KHR_surface\"\n\
    typedef VkResult (VKAPI_PTR *PFN_vkCreateSwapchainKHR)(VkDevice device, const VkSwapchainCreateInfoKHR* pCreateInfo, VkSwapchainKHR* pSwapchain);\n\
    VKAPI_ATTR VkResult VKAPI_CALL vkCreateSwapchainKHR(VkDevice device, const VkSwapchainCreateInfoKHR* pCreateInfo, VkSwapchainKHR* pSwapchain);\n\
    #endif\n";

/// Its header at choice 1.
pub(super) const WINDOWS_1: &[u8] = b"\
    #ifndef VULKAN_CORE_H_\n\
    #define VULKAN_CORE_H_ 1\n\
    #define VK_VERSION_1_0 1\n\
    #include \"vk_platform.h\"\n\
    #define VK_DEFINE_HANDLE(object) typedef struct object##_T* object;\n\
    typedef enum VkResult {\n\
    \x20\x20\x20\x20VK_SUCCESS = 0,\n\
    \x20\x20\x20\x20VK_INCOMPLETE = 5,\n\
    \x20\x20\x20\x20VK_RESULT_MAX_ENUM = 0x7FFFFFFF\n\
    } VkResult;\n\
    VK_DEFINE_HANDLE(VkDevice)\n\
    #endif\n";

/// An extension depends on a member of a struct that another requires.
pub(super) const WITH_BIT: &[u8] = b"\
    <registry><types><type name='VkBool32'/><type category='struct' name='VkF'><member>\
    <type>VkBool32</type> <name>m</name></member></type></types><feature api='vulkan' name='VK_V' number='1.0'/>\
    <extensions><extension name='VK_A' number='1' supported='vulkan'><require><type name='VkF'/></require></extension>\
    <extension name='VK_B' number='2' supported='vulkan' depends='VkF::m'/></extensions></registry>";

/// Its header at choice 15.
pub(super) const WITH_BIT_15: &[u8] = b"\
    #ifndef VULKAN_CORE_H_\n\
    #define VULKAN_CORE_H_ 1\n\
    #define VK_V 1\n\
    #define VK_A 1\n\
    #define VK_B 1\n\
    typedef struct VkF {\n\
    \x20\x20\x20\x20VkBool32 m;\n\
    } VkF;\n\
    #endif\n";

/// Its header at choice 8.
pub(super) const WITH_BIT_8: &[u8] = b"#ifndef VULKAN_CORE_H_\n#define VULKAN_CORE_H_ 1\n#endif\n";

/// A struct that names itself.
pub(super) const OWN: &[u8] = b"\
    <registry><types><type category='struct' name='VkN'><member>const struct <type>VkN</type>* <name>pNext</name>\
    </member></type></types><feature api='vulkan' name='VK_V' number='1.0'><require><type name='VkN'/></require>\
    </feature></registry>";

/// Its header at choice 1.
pub(super) const OWN_1: &[u8] = b"\
    #ifndef VULKAN_CORE_H_\n\
    #define VULKAN_CORE_H_ 1\n\
    #define VK_V 1\n\
    typedef struct VkN {\n\
    \x20\x20\x20\x20const struct VkN* pNext;\n\
    } VkN;\n\
    #endif\n";

/// An extension removes a name that another has as its member's type.
pub(super) const NAMED: &[u8] = b"\
    <registry><types><type category='struct' name='VkFoo'><member><type>VkBar</type> <name>m</name></member></type>\
    <type category='struct' name='VkBar'/></types>\
    <feature api='vulkan' name='VK_V' number='1.0'><require><type name='VkFoo'/><type name='VkBar'/></require>\
    </feature><extensions><extension name='VK_R' number='1' supported='vulkan'><remove><type name='VkBar'/></remove>\
    </extension></extensions></registry>";

/// Its header at choice 3.
pub(super) const NAMED_3: &[u8] = b"\
    #ifndef VULKAN_CORE_H_\n\
    #define VULKAN_CORE_H_ 1\n\
    #define VK_V 1\n\
    #define VK_R 1\n\
    typedef struct VkBar {\n\
    } VkBar;\n\
    typedef struct VkFoo {\n\
    \x20\x20\x20\x20VkBar m;\n\
    } VkFoo;\n\
    #endif\n";

/// An extension removes a name.
pub(super) const REMOVED: &[u8] = b"\
    <registry><types><type category='struct' name='VkFoo'/><type category='struct' name='VkBar'/></types>\
    <feature api='vulkan' name='VK_V' number='1.0'><require><type name='VkFoo'/><type name='VkBar'/></require>\
    </feature><extensions><extension name='VK_R' number='1' supported='vulkan'><remove><type name='VkBar'/></remove>\
    </extension></extensions></registry>";

/// Its header at choice 3.
pub(super) const REMOVED_3: &[u8] = b"\
    #ifndef VULKAN_CORE_H_\n\
    #define VULKAN_CORE_H_ 1\n\
    #define VK_V 1\n\
    #define VK_R 1\n\
    typedef struct VkFoo {\n\
    } VkFoo;\n\
    #endif\n";

/// Names with digits and tags.
pub(super) const TAGS: &[u8] = b"\
    <registry><tags><tag name='R'/><tag name='KHR'/><tag name='HR'/><tag name='EXT'/></tags><types>\
    <type category='enum' name='VkA1bKHR'/><type category='enum' name='VkVp9C2DHR'/><type category='enum' name='KHR'/>\
    <type category='enum' name='VkExt'/></types><feature api='vulkan' name='VK_V' number='1.0'><require>\
    <type name='VkA1bKHR'/><type name='VkVp9C2DHR'/><type name='KHR'/><type name='VkExt'/></require></feature>\
    </registry>";

/// Its header at choice 1.
pub(super) const TAGS_1: &[u8] = b"\
    #ifndef VULKAN_CORE_H_\n\
    #define VULKAN_CORE_H_ 1\n\
    #define VK_V 1\n\
    typedef enum VkA1bKHR {\n\
    \x20\x20\x20\x20VK_A1B_MAX_ENUM_KHR = 0x7FFFFFFF\n\
    } VkA1bKHR;\n\
    typedef enum VkVp9C2DHR {\n\
    \x20\x20\x20\x20VK_VP_9_C2_D_MAX_ENUM_HR = 0x7FFFFFFF\n\
    } VkVp9C2DHR;\n\
    typedef enum KHR {\n\
    \x20\x20\x20\x20K_MAX_ENUM_HR = 0x7FFFFFFF\n\
    } KHR;\n\
    typedef enum VkExt {\n\
    \x20\x20\x20\x20VK_EXT_MAX_ENUM = 0x7FFFFFFF\n\
    } VkExt;\n\
    #endif\n";

/// Masks of 32 and of 64 bits with aliases, of which some are required and removed.
pub(super) const MASKS: &[u8] = b"\
    <registry><types><type name='VkFlags64'/><type category='enum' name='VkM'/><type category='enum' name='VkW'/>\
    </types><enums name='VkM' type='bitmask'><enum name='M_OLD' alias='M_TOP'/><enum name='M_NONE' value='0'/>\
    <enum name='M_TOP' bitpos='31'/><enum name='M_ALL' value='0xabcdef'/></enums>\
    <enums name='VkW' type='bitmask' bitwidth='64'><enum name='W_OLD' alias='W_TOP'/><enum name='W_NONE' value='0'/>\
    <enum name='W_TOP' bitpos='63'/><enum name='W_LOW' bitpos='10'/></enums>\
    <feature api='vulkan' name='VK_V' number='1.0'><require><type name='VkM'/><type name='VkW'/></require></feature>\
    </registry>";

/// Its header at choice 1.
pub(super) const MASKS_1: &[u8] = b"\
    #ifndef VULKAN_CORE_H_\n\
    #define VULKAN_CORE_H_ 1\n\
    #define VK_V 1\n\
    typedef enum VkM {\n\
    \x20\x20\x20\x20M_NONE = 0,\n\
    \x20\x20\x20\x20M_TOP = 0x80000000,\n\
    \x20\x20\x20\x20M_ALL = 0x00ABCDEF,\n\
    \x20\x20\x20\x20M_OLD = M_TOP,\n\
    \x20\x20\x20\x20VK_M_MAX_ENUM = 0x7FFFFFFF\n\
    } VkM;\n\
    typedef VkFlags64 VkW;\n\
    static const VkW W_NONE = 0ULL;\n\
    static const VkW W_TOP = 0x8000000000000000ULL;\n\
    static const VkW W_LOW = 0x00000400ULL;\n\
    static const VkW W_OLD = 0x8000000000000000ULL;\n\
    #endif\n";

/// Values that extensions require and remove. One that is removed is the end of an alias that isn't.
pub(super) const VALUES: &[u8] = b"\
    <registry><types><type category='enum' name='VkE'/></types><enums name='VkE' type='enum'>\
    <enum name='E_LOW' value='-3'/><enum name='E_ONE' value='1'/></enums>\
    <feature api='vulkan' name='VK_V' number='1.0'><require><type name='VkE'/></require></feature><extensions>\
    <extension name='VK_A' number='1' supported='vulkan'><require><enum name='E_A' extends='VkE' offset='2'/>\
    <enum name='E_B' extends='VkE' alias='E_A2'/><enum name='E_C' extends='VkE' alias='E_ONE'/></require></extension>\
    <extension name='VK_B' number='2' supported='vulkan'><require><enum name='E_A2' extends='VkE' offset='0' dir='-'/>\
    </require><remove><enum name='E_ONE'/><enum name='E_A'/></remove></extension></extensions></registry>";

/// Its header at choice 1.
pub(super) const VALUES_1: &[u8] = b"\
    #ifndef VULKAN_CORE_H_\n\
    #define VULKAN_CORE_H_ 1\n\
    #define VK_V 1\n\
    typedef enum VkE {\n\
    \x20\x20\x20\x20E_LOW = -3,\n\
    \x20\x20\x20\x20E_ONE = 1,\n\
    \x20\x20\x20\x20VK_E_MAX_ENUM = 0x7FFFFFFF\n\
    } VkE;\n\
    #endif\n";

/// Its header at choice 3.
pub(super) const VALUES_3: &[u8] = b"\
    #ifndef VULKAN_CORE_H_\n\
    #define VULKAN_CORE_H_ 1\n\
    #define VK_V 1\n\
    #define VK_A 1\n\
    typedef enum VkE {\n\
    \x20\x20\x20\x20E_LOW = -3,\n\
    \x20\x20\x20\x20E_ONE = 1,\n\
    \x20\x20\x20\x20E_A = 1000000002,\n\
    \x20\x20\x20\x20E_A2 = -1000001000,\n\
    \x20\x20\x20\x20E_B = E_A2,\n\
    \x20\x20\x20\x20E_C = E_ONE,\n\
    \x20\x20\x20\x20VK_E_MAX_ENUM = 0x7FFFFFFF\n\
    } VkE;\n\
    #endif\n";

/// Its header at choice 5.
pub(super) const VALUES_5: &[u8] = b"\
    #ifndef VULKAN_CORE_H_\n\
    #define VULKAN_CORE_H_ 1\n\
    #define VK_V 1\n\
    #define VK_B 1\n\
    typedef enum VkE {\n\
    \x20\x20\x20\x20E_LOW = -3,\n\
    \x20\x20\x20\x20E_A2 = -1000001000,\n\
    \x20\x20\x20\x20VK_E_MAX_ENUM = 0x7FFFFFFF\n\
    } VkE;\n\
    #endif\n";

/// Its header at choice 7.
pub(super) const VALUES_7: &[u8] = b"\
    #ifndef VULKAN_CORE_H_\n\
    #define VULKAN_CORE_H_ 1\n\
    #define VK_V 1\n\
    #define VK_A 1\n\
    #define VK_B 1\n\
    typedef enum VkE {\n\
    \x20\x20\x20\x20E_LOW = -3,\n\
    \x20\x20\x20\x20E_ONE = 1,\n\
    \x20\x20\x20\x20E_A2 = -1000001000,\n\
    \x20\x20\x20\x20E_B = E_A2,\n\
    \x20\x20\x20\x20E_C = E_ONE,\n\
    \x20\x20\x20\x20VK_E_MAX_ENUM = 0x7FFFFFFF\n\
    } VkE;\n\
    #endif\n";

/// Types of every other kind, aliases, constants and commands.
pub(super) const KINDS: &[u8] = b"\
    <registry><types><type name='inc' category='include'/><type category='define' name='VK_EMPTY'></type>\
    <type name='int'/><type category='union' name='VkU'><member><type>int</type>   <name>a</name></member><member>\
    <type>int</type> <name>b</name></member></type><type category='union' name='VkUOld' alias='VkU'/>\
    <type category='funcpointer'>typedef <type>int</type> (*<name>PFN_old</name>)();</type>\
    <type category='funcpointer'><proto><type>int</type> <name>PFN_new</name></proto><param>\
    <type>int</type> <name>a</name></param></type></types><enums name='API Constants'><enum name='VK_N' value='(~0U)'/>\
    <enum name='VK_N2' alias='VK_N'/></enums><commands><command><proto>const <type>int</type>* <name>vkA</name></proto>\
    </command><command name='vkB' alias='vkA'/></commands><feature api='vulkan' name='VK_V' number='1.0'><require>\
    <command name='vkB'/><type name='inc'/><type name='VK_EMPTY'/><type name='VkUOld'/><type name='PFN_old'/>\
    <type name='PFN_new'/><enum name='VK_N2'/></require></feature></registry>";

/// Its header at choice 1.
pub(super) const KINDS_1: &[u8] = b"\
    #ifndef VULKAN_CORE_H_\n\
    #define VULKAN_CORE_H_ 1\n\
    #define VK_V 1\n\
    #include <inc>\n\
    \n\
    typedef union VkU {\n\
    \x20\x20\x20\x20int a;\n\
    \x20\x20\x20\x20int b;\n\
    } VkU;\n\
    typedef VkU VkUOld;\n\
    typedef int (*PFN_old)();\n\
    typedef int (VKAPI_PTR *PFN_new)(int a);\n\
    #define VK_N (~0U)\n\
    #define VK_N2 VK_N\n\
    typedef const int* (VKAPI_PTR *PFN_vkA)(void);\n\
    VKAPI_ATTR const int* VKAPI_CALL vkA(void);\n\
    typedef const int* (VKAPI_PTR *PFN_vkB)(void);\n\
    VKAPI_ATTR const int* VKAPI_CALL vkB(void);\n\
    #endif\n";
