//! The text of the API macros (Zephyr 3.7, "Devicetree API").

/// The API text: the macros by which C code asks the header, a line each. It is C text by itself and
/// is to be read behind the header or before it.
pub const API_TEXT: &str = "\
/* Base */\n\
#define DT_CAT(a, b) a##b\n\
#define DT_CAT3(a, b, c) a##b##c\n\
#define DT_CAT4(a, b, c, d) a##b##c##d\n\
#define DT_CAT5(a, b, c, d, e) a##b##c##d##e\n\
#define DT_CAT6(a, b, c, d, e, f) a##b##c##d##e##f\n\
#define DT_CAT7(a, b, c, d, e, f, g) a##b##c##d##e##f##g\n\
#define DT_CAT8(a, b, c, d, e, f, g, h) a##b##c##d##e##f##g##h\n\
#define DT_DEBRACKET_INTERNAL(...) __VA_ARGS__\n\
#define Z_XXXX1 Z_YYYY,\n\
#define IS_ENABLED(x) Z_IS_ENABLED1(x)\n\
#define Z_IS_ENABLED1(x) Z_IS_ENABLED2(Z_XXXX##x)\n\
#define Z_IS_ENABLED2(x) Z_IS_ENABLED3(x 1, 0, 0)\n\
#define Z_IS_ENABLED3(a, v, ...) v\n\
#define COND_CODE_1(x, t, e) Z_COND1(x, t, e)\n\
#define Z_COND1(x, t, e) Z_COND2(Z_XXXX##x, t, e)\n\
#define Z_COND2(x, t, e) Z_COND3(x t, e, 0)\n\
#define Z_COND3(a, v, ...) Z_DEBRACKET v\n\
#define Z_DEBRACKET(...) __VA_ARGS__\n\
#define DT_NARGS(...) Z_NARGS(__VA_ARGS__, 12, 11, 10, 9, 8, 7, 6, 5, 4, 3, 2, 1, 0)\n\
#define Z_NARGS(a, b, c, d, e, f, g, h, i, j, k, l, n, ...) n\n\
/* Nodes */\n\
#define DT_ROOT DT_N\n\
#define DT_PATH(...) Z_PATH(DT_NARGS(__VA_ARGS__), __VA_ARGS__)\n\
#define Z_PATH(n, ...) DT_CAT(Z_PATH_, n)(__VA_ARGS__)\n\
#define Z_PATH_1(a) DT_N_S_##a\n\
#define Z_PATH_2(a, b) DT_CHILD(Z_PATH_1(a), b)\n\
#define Z_PATH_3(a, b, c) DT_CHILD(Z_PATH_2(a, b), c)\n\
#define Z_PATH_4(a, b, c, d) DT_CHILD(Z_PATH_3(a, b, c), d)\n\
#define Z_PATH_5(a, b, c, d, e) DT_CHILD(Z_PATH_4(a, b, c, d), e)\n\
#define Z_PATH_6(a, b, c, d, e, f) DT_CHILD(Z_PATH_5(a, b, c, d, e), f)\n\
#define Z_PATH_7(a, b, c, d, e, f, g) DT_CHILD(Z_PATH_6(a, b, c, d, e, f), g)\n\
#define Z_PATH_8(a, b, c, d, e, f, g, h) DT_CHILD(Z_PATH_7(a, b, c, d, e, f, g), h)\n\
#define Z_PATH_9(a, b, c, d, e, f, g, h, i) DT_CHILD(Z_PATH_8(a, b, c, d, e, f, g, h), i)\n\
#define Z_PATH_10(a, b, c, d, e, f, g, h, i, j) DT_CHILD(Z_PATH_9(a, b, c, d, e, f, g, h, i), j)\n\
#define Z_PATH_11(a, b, c, d, e, f, g, h, i, j, k) DT_CHILD(Z_PATH_10(a, b, c, d, e, f, g, h, i, \
    j), k)\n\
#define Z_PATH_12(a, b, c, d, e, f, g, h, i, j, k, l) DT_CHILD(Z_PATH_11(a, b, c, d, e, f, g, h, \
    i, j, k), l)\n\
#define DT_NODELABEL(l) DT_CAT(DT_N_NODELABEL_, l)\n\
#define DT_ALIAS(a) DT_CAT(DT_N_ALIAS_, a)\n\
#define DT_INST(i, c) DT_CAT4(DT_N_INST_, i, _, c)\n\
#define DT_DRV_INST(i) DT_INST(i, DT_DRV_COMPAT)\n\
#define DT_CHOSEN(c) DT_CAT(DT_CHOSEN_, c)\n\
#define DT_PARENT(n) DT_CAT(n, _PARENT)\n\
#define DT_GPARENT(n) DT_PARENT(DT_PARENT(n))\n\
#define DT_CHILD(n, w) DT_CAT3(n, _S_, w)\n\
#define DT_PHANDLE_BY_IDX(n, p, i) DT_CAT6(n, _P_, p, _IDX_, i, _PH)\n\
#define DT_PHANDLE_BY_NAME(n, p, m) DT_CAT6(n, _P_, p, _NAME_, m, _PH)\n\
#define DT_PHANDLE(n, p) DT_PHANDLE_BY_IDX(n, p, 0)\n\
#define DT_BUS(n) DT_CAT(n, _BUS)\n\
/* Values */\n\
#define DT_NODE_PATH(n) DT_CAT(n, _PATH)\n\
#define DT_NODE_FULL_NAME(n) DT_CAT(n, _FULL_NAME)\n\
#define DT_NODE_CHILD_IDX(n) DT_CAT(n, _CHILD_IDX)\n\
#define DT_CHILD_NUM(n) DT_CAT(n, _CHILD_NUM)\n\
#define DT_CHILD_NUM_STATUS_OKAY(n) DT_CAT(n, _CHILD_NUM_STATUS_OKAY)\n\
#define DT_DEP_ORD(n) DT_CAT(n, _ORD)\n\
#define DT_REQUIRES_DEP_ORDS(n) DT_CAT(n, _REQUIRES_ORDS)\n\
#define DT_SUPPORTS_DEP_ORDS(n) DT_CAT(n, _SUPPORTS_ORDS)\n\
#define DT_PROP(n, p) DT_CAT3(n, _P_, p)\n\
#define DT_PROP_LEN(n, p) DT_CAT4(n, _P_, p, _LEN)\n\
#define DT_PROP_LEN_OR(n, p, d) COND_CODE_1(DT_NODE_HAS_PROP(n, p), (DT_PROP_LEN(n, p)), (d))\n\
#define DT_PROP_BY_IDX(n, p, i) DT_CAT5(n, _P_, p, _IDX_, i)\n\
#define DT_PROP_OR(n, p, d) COND_CODE_1(DT_NODE_HAS_PROP(n, p), (DT_PROP(n, p)), (d))\n\
#define DT_ENUM_IDX(n, p) DT_CAT4(n, _P_, p, _ENUM_IDX)\n\
#define DT_ENUM_IDX_OR(n, p, d) COND_CODE_1(DT_NODE_HAS_PROP(n, p), (DT_ENUM_IDX(n, p)), (d))\n\
#define DT_ENUM_IDX_BY_IDX(n, p, i) DT_CAT6(n, _P_, p, _IDX_, i, _ENUM_IDX)\n\
#define DT_PHA_BY_IDX(n, p, i, c) DT_CAT7(n, _P_, p, _IDX_, i, _VAL_, c)\n\
#define DT_PHA_BY_IDX_OR(n, p, i, c, d) COND_CODE_1(DT_PHA_HAS_CELL_AT_IDX(n, p, i, c), \
    (DT_PHA_BY_IDX(n, p, i, c)), (d))\n\
#define DT_PHA(n, p, c) DT_PHA_BY_IDX(n, p, 0, c)\n\
#define DT_PHA_OR(n, p, c, d) DT_PHA_BY_IDX_OR(n, p, 0, c, d)\n\
#define DT_PHA_BY_NAME(n, p, m, c) DT_CAT7(n, _P_, p, _NAME_, m, _VAL_, c)\n\
#define DT_PHA_BY_NAME_OR(n, p, m, c, d) COND_CODE_1(IS_ENABLED(DT_CAT8(n, _P_, p, _NAME_, m, \
    _VAL_, c, _EXISTS)), (DT_PHA_BY_NAME(n, p, m, c)), (d))\n\
#define DT_PROP_BY_PHANDLE_IDX(n, q, i, p) DT_PROP(DT_PHANDLE_BY_IDX(n, q, i), p)\n\
#define DT_PROP_BY_PHANDLE(n, q, p) DT_PROP_BY_PHANDLE_IDX(n, q, 0, p)\n\
#define DT_NUM_REGS(n) DT_CAT(n, _REG_NUM)\n\
#define DT_REG_ADDR_BY_IDX(n, i) DT_CAT4(n, _REG_IDX_, i, _VAL_ADDRESS)\n\
#define DT_REG_SIZE_BY_IDX(n, i) DT_CAT4(n, _REG_IDX_, i, _VAL_SIZE)\n\
#define DT_REG_ADDR(n) DT_REG_ADDR_BY_IDX(n, 0)\n\
#define DT_REG_SIZE(n) DT_REG_SIZE_BY_IDX(n, 0)\n\
#define DT_REG_ADDR_BY_NAME(n, m) DT_CAT4(n, _REG_NAME_, m, _VAL_ADDRESS)\n\
#define DT_REG_SIZE_BY_NAME(n, m) DT_CAT4(n, _REG_NAME_, m, _VAL_SIZE)\n\
#define DT_NUM_RANGES(n) DT_CAT(n, _RANGES_NUM)\n\
#define DT_RANGES_CHILD_BUS_ADDRESS_BY_IDX(n, i) DT_CAT4(n, _RANGES_IDX_, i, \
    _VAL_CHILD_BUS_ADDRESS)\n\
#define DT_RANGES_PARENT_BUS_ADDRESS_BY_IDX(n, i) DT_CAT4(n, _RANGES_IDX_, i, \
    _VAL_PARENT_BUS_ADDRESS)\n\
#define DT_RANGES_LENGTH_BY_IDX(n, i) DT_CAT4(n, _RANGES_IDX_, i, _VAL_LENGTH)\n\
#define DT_NUM_IRQS(n) DT_CAT(n, _IRQ_NUM)\n\
#define DT_IRQ_BY_IDX(n, i, c) DT_CAT5(n, _IRQ_IDX_, i, _VAL_, c)\n\
#define DT_IRQ_BY_NAME(n, m, c) DT_CAT5(n, _IRQ_NAME_, m, _VAL_, c)\n\
#define DT_IRQ(n, c) DT_IRQ_BY_IDX(n, 0, c)\n\
#define DT_NUM_INST_STATUS_OKAY(c) COND_CODE_1(DT_HAS_COMPAT_STATUS_OKAY(c), \
    (DT_CAT3(DT_N_INST_, c, _NUM_OKAY)), (0))\n\
/* Tests */\n\
#define DT_NODE_EXISTS(n) IS_ENABLED(DT_CAT(n, _EXISTS))\n\
#define DT_NODE_HAS_STATUS(n, s) IS_ENABLED(DT_CAT3(n, _STATUS_, s))\n\
#define DT_NODE_HAS_COMPAT(n, c) IS_ENABLED(DT_CAT3(n, _COMPAT_MATCHES_, c))\n\
#define DT_NODE_HAS_PROP(n, p) IS_ENABLED(DT_CAT4(n, _P_, p, _EXISTS))\n\
#define DT_HAS_COMPAT_STATUS_OKAY(c) IS_ENABLED(DT_CAT(DT_COMPAT_HAS_OKAY_, c))\n\
#define DT_HAS_CHOSEN(c) IS_ENABLED(DT_CAT3(DT_CHOSEN_, c, _EXISTS))\n\
#define DT_HAS_ALIAS(a) DT_NODE_EXISTS(DT_ALIAS(a))\n\
#define DT_PROP_HAS_IDX(n, p, i) IS_ENABLED(DT_CAT6(n, _P_, p, _IDX_, i, _EXISTS))\n\
#define DT_PROP_HAS_NAME(n, p, m) IS_ENABLED(DT_CAT6(n, _P_, p, _NAME_, m, _EXISTS))\n\
#define DT_PHA_HAS_CELL_AT_IDX(n, p, i, c) IS_ENABLED(DT_CAT8(n, _P_, p, _IDX_, i, _VAL_, c, \
    _EXISTS))\n\
#define DT_PHA_HAS_CELL(n, p, c) DT_PHA_HAS_CELL_AT_IDX(n, p, 0, c)\n\
#define DT_REG_HAS_IDX(n, i) IS_ENABLED(DT_CAT4(n, _REG_IDX_, i, _EXISTS))\n\
#define DT_REG_HAS_NAME(n, m) IS_ENABLED(DT_CAT4(n, _REG_NAME_, m, _EXISTS))\n\
#define DT_RANGES_HAS_IDX(n, i) IS_ENABLED(DT_CAT4(n, _RANGES_IDX_, i, _EXISTS))\n\
#define DT_IRQ_HAS_IDX(n, i) IS_ENABLED(DT_CAT4(n, _IRQ_IDX_, i, _EXISTS))\n\
#define DT_IRQ_HAS_NAME(n, m) IS_ENABLED(DT_CAT4(n, _IRQ_NAME_, m, _EXISTS))\n\
#define DT_IRQ_HAS_CELL_AT_IDX(n, i, c) IS_ENABLED(DT_CAT6(n, _IRQ_IDX_, i, _VAL_, c, _EXISTS))\n\
#define DT_ENUM_HAS_VALUE(n, p, v) IS_ENABLED(DT_CAT6(n, _P_, p, _ENUM_VAL_, v, _EXISTS))\n\
#define DT_ENUM_HAS_VALUE_BY_IDX(n, p, i, v) IS_ENABLED(DT_CAT8(n, _P_, p, _IDX_, i, _ENUM_VAL_, \
    v, _EXISTS))\n\
#define DT_ON_BUS(n, b) IS_ENABLED(DT_CAT3(n, _BUS_, b))\n\
/* Foreach */\n\
#define DT_FOREACH_CHILD(n, fn) DT_CAT(n, _FOREACH_CHILD)(fn)\n\
#define DT_FOREACH_CHILD_SEP(n, fn, sep) DT_CAT(n, _FOREACH_CHILD_SEP)(fn, sep)\n\
#define DT_FOREACH_CHILD_VARGS(n, fn, ...) DT_CAT(n, _FOREACH_CHILD_VARGS)(fn, __VA_ARGS__)\n\
#define DT_FOREACH_CHILD_STATUS_OKAY(n, fn) DT_CAT(n, _FOREACH_CHILD_STATUS_OKAY)(fn)\n\
#define DT_FOREACH_CHILD_STATUS_OKAY_SEP(n, fn, sep) DT_CAT(n, \
    _FOREACH_CHILD_STATUS_OKAY_SEP)(fn, sep)\n\
#define DT_FOREACH_CHILD_STATUS_OKAY_VARGS(n, fn, ...) DT_CAT(n, \
    _FOREACH_CHILD_STATUS_OKAY_VARGS)(fn, __VA_ARGS__)\n\
#define DT_FOREACH_PROP_ELEM(n, p, fn) DT_CAT4(n, _P_, p, _FOREACH_PROP_ELEM)(fn)\n\
#define DT_FOREACH_PROP_ELEM_SEP(n, p, fn, sep) DT_CAT4(n, _P_, p, _FOREACH_PROP_ELEM_SEP)(fn, \
    sep)\n\
#define DT_FOREACH_PROP_ELEM_VARGS(n, p, fn, ...) DT_CAT4(n, _P_, p, \
    _FOREACH_PROP_ELEM_VARGS)(fn, __VA_ARGS__)\n\
#define DT_FOREACH_STATUS_OKAY(c, fn) COND_CODE_1(DT_HAS_COMPAT_STATUS_OKAY(c), \
    (DT_CAT(DT_FOREACH_OKAY_, c)(fn)), ())\n\
#define DT_FOREACH_STATUS_OKAY_VARGS(c, fn, ...) COND_CODE_1(DT_HAS_COMPAT_STATUS_OKAY(c), \
    (DT_CAT(DT_FOREACH_OKAY_VARGS_, c)(fn, __VA_ARGS__)), ())\n\
#define DT_FOREACH_NODE(fn) DT_FOREACH_HELPER(fn)\n\
#define DT_FOREACH_STATUS_OKAY_NODE(fn) DT_FOREACH_OKAY_HELPER(fn)\n\
#define DT_INST_FOREACH_STATUS_OKAY(fn) Z_INST_FOREACH(DT_DRV_COMPAT, fn)\n\
#define Z_INST_FOREACH(c, fn) COND_CODE_1(DT_HAS_COMPAT_STATUS_OKAY(c), \
    (DT_CAT(DT_FOREACH_OKAY_INST_, c)(fn)), ())\n";
